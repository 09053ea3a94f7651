//! Entries: rows with the two numbers that a join keeps of each.

ghost use Rattle.std.specs.Prelude.{◌≡◌, ◌==◌, ◌↔◌, [], ◌∷◌, ◌++◌, ◌<◌, length, map, slice_get, vec_capacity, vec_len, IsTrue, OnOk, OnErr};
ghost use Rattle.spill_blocks.specs.Blocks.{HaveOneWidth, RowsHaveOneWidth};
ghost use Rattle.spill_blocks.specs.Entries.{kept_as, row_kept};

use crate::listing::Listing;
use row_pages::Rows;
use std::alloc::{AllocError, Global};
use std::marker::Model;
use tuple_core::{EncodedRow, Row};

// The two numbers of an entry.
#[derive(Clone, Copy, Debug)]
struct Numbers {
    a: u64,
    d: u64,
}

/// A row, where it lies, with its two numbers.
#[derive(Debug, Drop)]
pub struct Kept<'a> {
    /// The number of the row's arrival.
    pub a: u64,
    /// The arrival number that was due when the row left memory.
    pub d: u64,
    pub row: EncodedRow<'a>,
}

/// Rows with two numbers each, of which contracts see the list. The rows lie in pages, and are let go page by page.
#[derive(Debug, Drop)]
pub struct Entries {
    rows: Rows,
    numbers: Vec<Numbers>,
}

impl Model for Entries {
    ghost use Rattle.std.specs.Prelude.{◌≡◌, List, length};
    ghost use Rattle.spill_blocks.specs.declared.entries.Kept.{Kept};
    ghost use Rattle.spill_blocks.specs.Entries.{kept_list};

    ghost Value = { List Kept };

    ghost view = { λ e. kept_list e.numbers.items e.rows };

    ghost invariant = { λ e. length e.numbers.items ≡ length e.rows };
}

// Appends a number pair for which there is room.
fn put(numbers: Numbers, into: &mut Vec<Numbers>)
    requires { vec_len into.old < vec_capacity into.old }
    ensures { into.new.items ≡ into.old.items ++ numbers ∷ [] }
{
    match into.push(numbers) {
        Ok(()) => {}
        Err(_) => unreachable!(),
    }
}

impl Entries {
    /// The empty list, which holds no memory.
    pub fn new(alloc: Global) -> Entries
        ensures { result ≡ [] }
    {
        Entries {
            rows: Rows::new(alloc),
            numbers: Vec::new(alloc),
        }
    }

    pub fn len(&self) -> usize
        ensures { result ≡ length self.now }
    {
        self.numbers.len()
    }

    pub fn is_empty(&self) -> bool
        ensures { result ≡ (length self.now == 0) }
    {
        self.len() == 0
    }

    /// Puts a copy of a row with its numbers at the end. Where memory runs out, or at 2^32 pages, the list is as it was.
    pub fn push_row(&mut self, alloc: Global, a: u64, d: u64, row: &Row) -> Result<(), AllocError>
        ensures ok { OnOk result (self.new ≡ self.old ++ kept_as a d row.now ∷ []) }
        ensures err { OnErr result (self.new ≡ self.old) }
    {
        self.numbers.reserve(1)?;
        self.rows.push(alloc, row)?;
        put(Numbers { a, d }, &mut self.numbers);
        Ok(())
    }

    /// Puts a copy of an entry at the end. Where memory runs out, or at 2^32 pages, the list is as it was.
    pub fn push(&mut self, alloc: Global, kept: &Kept<'_>) -> Result<(), AllocError>
        ensures ok { OnOk result (self.new ≡ self.old ++ kept.now ∷ []) }
        ensures err { OnErr result (self.new ≡ self.old) }
    {
        self.numbers.reserve(1)?;
        self.rows.push_encoded(alloc, &kept.row)?;
        let (a, d) = (kept.a, kept.d);
        put(Numbers { a, d }, &mut self.numbers);
        Ok(())
    }

    /// The entry at an index, where it lies.
    pub fn get(&self, index: usize) -> Option<Kept<'_>>
        ensures { result ≡ slice_get self.now index }
    {
        let numbers = *self.numbers.get(index)?;
        let row = self.rows.get(index)?;
        Some(Kept {
            a: numbers.a,
            d: numbers.d,
            row,
        })
    }

    /// Whether all rows have one number of values, as the entries of a block do.
    pub fn have_one_width(&self) -> bool
        ensures { IsTrue result ↔ HaveOneWidth self.now }
    {
        Listing::Entries(self).has_one_width()
    }

    /// The rows alone, in their order. It takes no memory.
    pub fn into_rows(self) -> Rows
        ensures { result ≡ map row_kept self }
    {
        self.rows
    }
}

/// Whether all rows have one number of values, as the rows of a block do.
pub fn have_one_width(rows: &Rows) -> bool
    ensures { IsTrue result ↔ RowsHaveOneWidth rows.now }
{
    Listing::Rows(rows).has_one_width()
}
