//! Rows are put into their order where they lie: an index of them is sorted, and then they are told in its order.

ghost use Rattle.std.specs.Prelude.{◌≡◌, ◌<◌, ◌≤◌, ◌++◌, [], length, map, slice_index_or, All, refl, IfOk, OnOk, OnErr, Some};
ghost use Rattle.std.specs.Cmp.{partial_equiv_from_equiv};
ghost use Rattle.med_prelude.specs.Texts.{Bytes};
ghost use Rattle.row_pages.specs.Sorting.{IsEntry, entries_equiv, entries_po, entries_tie, entries_total, entry_cmp, entry_eq};
ghost use Rattle.tuple_core.specs.Distinct.{AreSortedDistinct};
ghost use Rattle.tuple_core.specs.Encoded.{value_seen};
ghost use Rattle.tuple_core.specs.Ranks.{CutsAlike, FirstTextBegins, TextBegins};

use crate::rows::Rows;
use std::alloc::{AllocError, Global};
use std::cmp::Ordering;
use tuple_core::{EncodedRow, ValueRef};

// A row of the list and its rank, which tells most rows apart without a look at them.
#[derive(Drop)]
struct Entry<'a> {
    rank: u128,
    index: usize,
    row: EncodedRow<'a>,
}

impl PartialEq for Entry<'_> {
    ghost eq = { entry_eq };

    ghost laws = { partial_equiv_from_equiv entries_equiv };

    fn eq(&self, other: &Self) -> bool {
        self.rank == other.rank && self.row == other.row
    }
}

impl Eq for Entry<'_> {
    ghost laws = { entries_equiv };
}

impl PartialOrd for Entry<'_> {
    ghost partial_cmp = { λ x y. Some (entry_cmp x y) };

    ghost laws = { entries_po };

    fn partial_cmp(&self, other: &Self) -> Option<Ordering> {
        Some(self.cmp(other))
    }
}

impl Ord for Entry<'_> {
    ghost cmp = { entry_cmp };

    ghost total = { entries_total };

    ghost matches_partial_cmp = { λ x y. refl };

    ghost matches_eq = { entries_tie };

    fn cmp(&self, other: &Self) -> Ordering {
        match self.rank.cmp(&other.rank) {
            Ordering::Equal => self.row.cmp(&other.row),
            decided => decided,
        }
    }
}

// The bytes with which both begin.
fn shared_front<'a>(x: &'a [u8], y: &[u8]) -> &'a [u8]
    ensures first { (rest : Bytes) × (x.now ≡ result.now ++ rest) }
    ensures second { (rest : Bytes) × (y.now ≡ result.now ++ rest) }
{
    let shorter = x.len().min(y.len());
    for index in 0..shorter {
        if x[index] != y[index] {
            return x.split_at(index).0;
        }
    }
    x.split_at(shorter).0
}

fn shared_with_value<'a>(front: &'a [u8], value: ValueRef<'_>) -> &'a [u8]
    ensures shorter { (rest : Bytes) × (front.now ≡ result.now ++ rest) }
    ensures begins { TextBegins result.now (value_seen value.entry) }
{
    match value {
        ValueRef::Int(_) => front,
        ValueRef::Text(text) => shared_front(front, text),
        ValueRef::Bool(_) => front,
    }
}

fn shared_with_row<'a>(front: &'a [u8], row: &EncodedRow<'_>) -> &'a [u8]
    ensures shorter { (rest : Bytes) × (front.now ≡ result.now ++ rest) }
    ensures begins { FirstTextBegins result.now row.now }
{
    match row.values().next() {
        Some(value) => shared_with_value(front, value),
        None => front,
    }
}

// The text with which the first row begins, where it begins with one.
fn first_text(rows: &Rows) -> &[u8] {
    let Some(row) = rows.get(0) else {
        return &[];
    };
    match row.values().next() {
        Some(ValueRef::Text(text)) => text,
        _ => &[],
    }
}

// How many first bytes the texts share with which the rows begin.
fn shared_length(rows: &Rows) -> usize
    ensures { CutsAlike result rows.now }
{
    let mut front = first_text(rows);
    for index in 0..rows.len() {
        if front.is_empty() {
            return 0;
        }
        let Some(row) = rows.get(index) else {
            unreachable!();
        };
        front = shared_with_row(front, &row);
    }
    front.len()
}

fn entries_of<'a>(alloc: Global, rows: &'a Rows, skip: usize) -> Result<Vec<Entry<'a>>, AllocError>
    ensures rows { IfOk result (λ entries. map (λ entry. entry.row) entries.items ≡ rows.now) }
    ensures each { IfOk result (λ entries. All (IsEntry skip rows.now) entries.items) }
{
    let mut entries = Vec::with_capacity(alloc, rows.len())?;
    for index in 0..rows.len() {
        let Some(row) = rows.get(index) else {
            unreachable!();
        };
        let rank = row.rank(skip);
        entries.push(Entry { rank, index, row })?;
    }
    Ok(entries)
}

fn indices_of(alloc: Global, entries: &[Entry<'_>]) -> Result<Vec<usize>, AllocError>
    ensures { IfOk result (λ indices. indices.items ≡ map (λ entry. entry.index) entries.now) }
{
    entries.iter().map(|entry| entry.index).collect(alloc)
}

fn sorted_indices(alloc: Global, rows: &Rows) -> Result<Vec<usize>, AllocError>
    ensures inside { IfOk result (λ indices. All (λ index. index < length rows.now) indices.items) }
    ensures sorted { IfOk result (λ indices. AreSortedDistinct rows.now (map (λ index. slice_index_or rows.now index []) indices.items)) }
{
    let mut entries = entries_of(alloc, rows, shared_length(rows))?;
    entries.sort_unstable();
    entries.dedup();
    indices_of(alloc, entries.as_slice())
}

impl Rows {
    /// Puts the rows into their order, each once. None is moved. Where memory runs out, the list is as it was.
    pub fn sort_distinct(&mut self, alloc: Global) -> Result<(), AllocError>
        ensures ok { OnOk result (AreSortedDistinct self.old self.new) }
        ensures err { OnErr result (self.new ≡ self.old) }
    {
        let indices = sorted_indices(alloc, self)?;
        self.select(alloc, indices.as_slice())
    }
}

/// The rows in their order, each once.
pub fn sorted_distinct(alloc: Global, mut rows: Rows) -> Result<Rows, AllocError>
    ensures { IfOk result (λ sorted. AreSortedDistinct rows sorted) }
{
    rows.sort_distinct(alloc)?;
    Ok(rows)
}
