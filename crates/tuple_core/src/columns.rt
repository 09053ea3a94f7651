//! The columns of a relation.

ghost use Rattle.std.specs.Prelude.{◌≡◌};

use med_prelude::{Listed, Text};
use std::alloc::AllocError;

/// What kind of values a column holds.
#[derive(Clone, Copy, Debug, PartialEq, Eq)]
pub enum Kind {
    Int,
    Text,
    Bool,
}

/// A column of a relation, whose name is that of its field in a header.
#[derive(Debug, PartialEq, Eq, Drop)]
pub struct Column {
    pub name: Text,
    pub kind: Kind,
}

impl Clone for Column {
    ghost is_clone = { λ column copy. copy ≡ column };

    fn clone(&self) -> Result<Column, AllocError> {
        Ok(Column {
            name: self.name.clone()?,
            kind: self.kind,
        })
    }
}

/// The columns of a relation, from left to right.
pub type Columns = Listed<Column>;
