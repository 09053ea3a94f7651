//! A value of a column.

ghost use Rattle.std.specs.Prelude.{◌≡◌};
ghost use Rattle.tuple_core.specs.Encoded.{value_seen};

use crate::encoded::ValueRef;
use med_prelude::Text;
use std::alloc::AllocError;

/// A value. The variants stand in the order of their kinds, by which values of two kinds compare.
#[derive(Debug, PartialEq, Eq, PartialOrd, Ord, Drop)]
pub enum Value {
    Int(i64),
    Text(Text),
    Bool(bool),
}

impl Value {
    /// The most bytes of a text in a row.
    pub const LONGEST_TEXT: usize = 65_536;

    /// The value, where it lies.
    pub fn seen(&self) -> ValueRef<'_>
        ensures { value_seen result ≡ self.now }
    {
        match self {
            Value::Int(number) => ValueRef::Int(*number),
            Value::Text(text) => ValueRef::Text(text.as_bytes()),
            Value::Bool(truth) => ValueRef::Bool(*truth),
        }
    }
}

impl Clone for Value {
    ghost is_clone = { λ value copy. copy ≡ value };

    fn clone(&self) -> Result<Value, AllocError> {
        match self {
            Value::Int(number) => Ok(Value::Int(*number)),
            Value::Text(text) => Ok(Value::Text(text.clone()?)),
            Value::Bool(truth) => Ok(Value::Bool(*truth)),
        }
    }
}
