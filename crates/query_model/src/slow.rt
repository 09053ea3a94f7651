//! Answers a query by nested choice.

ghost use Rattle.std.specs.Prelude.{◌≡◌, ◌≤◌, ◌++◌, length, IfOk, OnOk};
ghost use Rattle.query_core.specs.Answers.{answer_of, heads, items};
ghost use Rattle.query_model.specs.Walks.{binding_of, heads_from, AreBound};

use crate::entries::{Entry, bind_row};
use crate::heads::keep_head;
use query_core::{Arrivals, Atom, Query};
use row_pages::{Rows, sorted_distinct};
use std::alloc::{AllocError, Global};
use tuple_core::Row;

// Takes each row of the first atom that agrees with the entries, and goes on with the other atoms.
fn walk<'a>(
    alloc: Global,
    query: &Query,
    atoms: &[Atom],
    arrivals: &'a [Rows],
    entries: &mut Vec<Entry<'a>>,
    found: &mut Rows,
) -> Result<(), AllocError>
    requires head { length query.now.head ≤ Row.MOST_VALUES }
    requires bound { AreBound (binding_of entries.old.items) }
    ensures found { OnOk result (found.new ≡ found.old ++ heads_from query.now (binding_of entries.old.items) (items atoms.now arrivals.now)) }
    ensures entries { OnOk result (binding_of entries.new.items ≡ binding_of entries.old.items) }
{
    let Some((atom, more_atoms)) = atoms.split_first() else {
        return keep_head(alloc, query, entries.as_slice(), found);
    };
    let Some((rows, more_arrivals)) = arrivals.split_first() else {
        return Ok(());
    };
    let before = entries.len();
    for row in rows.iter() {
        if bind_row(atom.terms.as_slice(), row.values(), entries)? {
            walk(alloc, query, more_atoms, more_arrivals, entries, found)?;
        }
        entries.truncate(before);
    }
    Ok(())
}

/// The heads of the choices, found by taking a row of each atom in turn, in each way.
pub fn slow_heads(alloc: Global, query: &Query, arrivals: &Arrivals) -> Result<Rows, AllocError>
    requires head { length query.now.head ≤ Row.MOST_VALUES }
    ensures { IfOk result (λ rows. rows ≡ heads query.now.head query.now.atoms query.now.comparisons arrivals.now) }
{
    let mut entries = Vec::new(alloc);
    let mut found = Rows::new(alloc);
    walk(
        alloc,
        query,
        query.atoms.as_slice(),
        arrivals.as_slice(),
        &mut entries,
        &mut found,
    )?;
    Ok(found)
}

/// The distinct rows of the query's answer, in their order.
pub fn slow_answer(alloc: Global, query: &Query, arrivals: &Arrivals) -> Result<Rows, AllocError>
    requires head { length query.now.head ≤ Row.MOST_VALUES }
    ensures { IfOk result (λ rows. rows ≡ answer_of query.now arrivals.now) }
{
    let found = slow_heads(alloc, query, arrivals)?;
    sorted_distinct(alloc, found)
}
