//! What a block is put from: entries, or rows without numbers.

ghost use Rattle.std.specs.Prelude.{◌≡◌, ◌↔◌, IsTrue, length, slice_get};
ghost use Rattle.spill_blocks.specs.Blocks.{HaveOneWidth, width_of};
ghost use Rattle.spill_blocks.specs.Listings.{listed};

use crate::entries::{Entries, Kept};
use row_pages::Rows;

/// Entries for one block. Contracts see their list by `listed`.
#[derive(Clone, Copy)]
pub enum Listing<'a> {
    Entries(&'a Entries),
    Rows(&'a Rows),
}

impl<'a> Listing<'a> {
    pub fn len(self) -> usize
        ensures { result ≡ length (listed self.entry) }
    {
        match self {
            Listing::Entries(entries) => entries.len(),
            Listing::Rows(rows) => rows.len(),
        }
    }

    /// The entry at an index, where it lies. A row without numbers has zeros.
    pub fn get(self, index: usize) -> Option<Kept<'a>>
        ensures { result ≡ slice_get (listed self.entry) index }
    {
        match self {
            Listing::Entries(entries) => entries.get(index),
            Listing::Rows(rows) => {
                let row = rows.get(index)?;
                Some(Kept { a: 0, d: 0, row })
            }
        }
    }

    /// How many values the first row has.
    pub fn width(self) -> u8
        ensures { result ≡ width_of (listed self.entry) }
    {
        match self.get(0) {
            Some(kept) => kept.row.bytes()[0],
            None => 0,
        }
    }

    /// Whether all rows have as many values as the first.
    pub fn has_one_width(self) -> bool
        ensures { IsTrue result ↔ HaveOneWidth (listed self.entry) }
    {
        let width = self.width();
        for index in 0..self.len() {
            let Some(kept) = self.get(index) else {
                unreachable!();
            };
            if kept.row.bytes()[0] != width {
                return false;
            }
        }
        true
    }
}
