//! A row: a short list of values.

ghost use Rattle.std.specs.Prelude.{◌≡◌, refl, Some};
ghost use Rattle.std.specs.Cmp.{partial_equiv_from_equiv};
ghost use Rattle.tuple_core.specs.Order.{row_eq, rows_equiv, rows_total, rows_tie, rows_po};
ghost use Rattle.tuple_core.specs.Values.{FitsRow, row_cmp};

use crate::value::Value;
use std::alloc::AllocError;
use std::cmp::Ordering;
use std::marker::Model;

/// At most 64 values, in which a text has at most 65,536 bytes. Rows compare value by value; a proper
/// prefix is less.
#[derive(Debug, Drop)]
pub struct Row {
    values: Vec<Value>,
}

impl Model for Row {
    ghost use Rattle.tuple_core.specs.Values.{FitsRow, RowValues};

    ghost Value = { RowValues };

    ghost view = { λ r. r.values.items };

    ghost invariant = { λ r. FitsRow r.values.items };
}

impl Row {
    /// The most values of a row.
    pub const MOST_VALUES: usize = 64;

    /// The most bytes of a row's encoding.
    pub const GREATEST_WEIGHT: u64 = 4_194_625;

    /// The row of these values.
    pub fn new(values: Vec<Value>) -> Self
        requires { FitsRow values.items }
        ensures { result ≡ values.items }
    {
        Row { values }
    }

    /// The values from left to right.
    pub fn values(&self) -> &[Value]
        ensures value { result.now ≡ self.now }
        ensures fits { FitsRow self.now }
    {
        self.values.as_slice()
    }
}

impl Clone for Row {
    ghost is_clone = { λ row copy. copy ≡ row };

    fn clone(&self) -> Result<Row, AllocError> {
        Ok(Row {
            values: self.values.clone()?,
        })
    }
}

impl PartialEq for Row {
    ghost eq = { row_eq };

    ghost laws = { partial_equiv_from_equiv rows_equiv };

    fn eq(&self, other: &Self) -> bool {
        self.values == other.values
    }
}

impl Eq for Row {
    ghost laws = { rows_equiv };
}

impl PartialOrd for Row {
    ghost partial_cmp = { λ x y. Some (row_cmp x y) };

    ghost laws = { rows_po };

    fn partial_cmp(&self, other: &Self) -> Option<Ordering> {
        Some(self.cmp(other))
    }
}

impl Ord for Row {
    ghost cmp = { row_cmp };

    ghost total = { rows_total };

    ghost matches_partial_cmp = { λ x y. refl };

    ghost matches_eq = { rows_tie };

    fn cmp(&self, other: &Self) -> Ordering {
        self.values.cmp(&other.values)
    }
}
