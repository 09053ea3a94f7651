//! The head of a choice whose comparisons hold.

ghost use Rattle.std.specs.Prelude.{◌≡◌, ◌≤◌, ◌++◌, length, IfOk, OnOk};
ghost use Rattle.std.specs.List.{filter_map};
ghost use Rattle.answer_theory.specs.Bindings.{value_of};
ghost use Rattle.answer_theory.specs.Solutions.{only};
ghost use Rattle.row_match.specs.Filters.{all_hold};
ghost use Rattle.query_core.specs.Answers.{head_row};
ghost use Rattle.query_model.specs.Walks.{binding_of, AreBound};

use crate::entries::{Entry, FirstEntries};
use query_core::Query;
use row_match::{Valuation, all_hold};
use row_pages::Rows;
use std::alloc::{AllocError, Global};
use tuple_core::Row;

fn head_row(alloc: Global, head: &[u32], entries: &FirstEntries) -> Result<Row, AllocError>
    requires short { length head.now ≤ Row.MOST_VALUES }
    requires bound { AreBound (binding_of entries.now.entries.now) }
    ensures { IfOk result (λ row. row ≡ filter_map (value_of (binding_of entries.now.entries.now)) head.now) }
{
    let mut values = Vec::with_capacity(alloc, head.len())?;
    for variable in head {
        if let Some(value) = entries.value_of(*variable) {
            values.push(value.to_value(alloc)?)?;
        }
    }
    Ok(Row::new(values))
}

/// Keeps the head of the entries where each comparison holds.
pub(crate) fn keep_head(
    alloc: Global,
    query: &Query,
    entries: &[Entry],
    found: &mut Rows,
) -> Result<(), AllocError>
    requires head { length query.now.head ≤ Row.MOST_VALUES }
    requires bound { AreBound (binding_of entries.now) }
    ensures { OnOk result (found.new ≡ found.old ++ only (all_hold query.now.comparisons (binding_of entries.now)) (head_row query.now.head (binding_of entries.now))) }
{
    let values = FirstEntries { entries };
    if all_hold(query.comparisons.as_slice(), &values) {
        found.push(alloc, &head_row(alloc, query.head.as_slice(), &values)?)?;
    }
    Ok(())
}
