//! How a row is matched with a pattern.

ghost use Rattle.std.specs.Prelude.{◌≡◌, ◌≤◌, length, Some, None, slice_get, IfOk, if◌then◌else◌};
ghost use Rattle.answer_theory.specs.Rows.{both_join};
ghost use Rattle.row_match.specs.Patterns.{matched_row, values_join};
ghost use Rattle.row_match.specs.Prepared.{kept_after};

use crate::pattern::{ColumnTerm, Pattern, Term};
use std::alloc::{AllocError, Global};
use tuple_core::{Row, Value};

fn is_at(values: &[Value], position: usize, value: &Value) -> bool
    ensures { result ≡ both_join values_join (Some value.now) (slice_get values.now position) }
{
    match values.get(position) {
        Some(kept) => *value == *kept,
        None => false,
    }
}

// Whether the value agrees with its column; it is kept where its variable is new.
fn agrees(column: &ColumnTerm, value: &Value, values: &mut Vec<Value>) -> Result<bool, AllocError>
    ensures { IfOk result (λ agrees. (if agrees then Some values.new.items else None) ≡ kept_after column.now value.now values.old.items) }
{
    match (&column.term, column.position) {
        (Term::Constant(constant), _) => Ok(*value == *constant),
        (Term::Variable(_), Some(position)) => Ok(is_at(values.as_slice(), position, value)),
        (Term::Variable(_), None) => {
            values.push(value.clone()?)?;
            Ok(true)
        }
    }
}

impl Pattern {
    /// The values of the pattern's variables, in their order; there are none where a constant or a repeated
    /// variable disagrees.
    pub fn match_row(&self, alloc: Global, row: &Row) -> Result<Option<Row>, AllocError>
        requires width { length row.now ≡ length self.now }
        ensures matched { IfOk result (λ m. m ≡ matched_row self.now row.now) }
    {
        let mut values = Vec::new(alloc);
        'columns: for (position, value) in row.values().iter().enumerate() {
            if !agrees(&self.columns[position], value, &mut values)? {
                return Ok(None);
            }
        }
        Ok(Some(Row::new(values)))
    }
}
