//! A list of rows that lie as their encodings.

ghost use Rattle.std.specs.Prelude.{◌≡◌, ◌==◌, ◌<◌, ◌++◌, [], ◌∷◌, length, map, slice_get, slice_index_or, All, IfOk, OnOk, OnErr};
ghost use Rattle.std.specs.Iterator.{YieldsFirstBy, item_count};
ghost use Rattle.tuple_core.specs.Values.{RowValues};

use crate::pieces::Pieces;
use std::alloc::{AllocError, Global};
use std::marker::Model;
use std::mem;
use tuple_core::{EncodedRow, Row};

/// Rows, which may have different numbers of values. Contracts see the list of them. A row takes the bytes of its
/// encoding and 12 more, and all of them are let go page by page.
#[derive(Debug, Drop)]
pub struct Rows {
    pieces: Pieces,
}

impl Model for Rows {
    ghost use Rattle.std.specs.Prelude.{All, map};
    ghost use Rattle.tuple_core.specs.Encoded.{IsEncoding, row_of};
    ghost use Rattle.tuple_core.specs.Values.{RowList};

    ghost Value = { RowList };

    ghost view = { λ r. map row_of r.pieces };

    ghost invariant = { λ r. All IsEncoding r.pieces };
}

impl Rows {
    /// The empty list, which holds no memory.
    pub fn new(alloc: Global) -> Rows
        ensures { result ≡ [] }
    {
        Rows {
            pieces: Pieces::new(alloc),
        }
    }

    pub fn len(&self) -> usize
        ensures { result ≡ length self.now }
    {
        self.pieces.len()
    }

    pub fn is_empty(&self) -> bool
        ensures { result ≡ (length self.now == 0) }
    {
        self.len() == 0
    }

    /// Puts a copy of the row at the end. Where memory runs out, or at 2^32 pages, the list is as it was.
    pub fn push(&mut self, alloc: Global, row: &Row) -> Result<(), AllocError>
        ensures ok { OnOk result (self.new ≡ self.old ++ row.now ∷ []) }
        ensures err { OnErr result (self.new ≡ self.old) }
    {
        self.pieces.push_row(alloc, &[], row)
    }

    /// Puts a copy of a row that lies elsewhere at the end. Where memory runs out, or at 2^32 pages, the list is as it was.
    pub fn push_encoded(&mut self, alloc: Global, row: &EncodedRow<'_>) -> Result<(), AllocError>
        ensures ok { OnOk result (self.new ≡ self.old ++ row.now ∷ []) }
        ensures err { OnErr result (self.new ≡ self.old) }
    {
        self.pieces.push(alloc, row.bytes())
    }

    /// The row at an index, where it lies.
    pub fn get(&self, index: usize) -> Option<EncodedRow<'_>>
        ensures { result ≡ slice_get self.now index }
    {
        let bytes = self.pieces.get(index)?;
        Some(EncodedRow::of(bytes))
    }

    /// The rows in their order, each where it lies.
    pub fn iter(&self) -> RowsLeft<'_>
        ensures { result ≡ self.now }
    {
        RowsLeft {
            rows: self,
            next: 0,
        }
    }

    /// Hands all rows on, and leaves none. It takes no memory.
    pub fn take(&mut self, alloc: Global) -> Rows
        ensures taken { result ≡ self.old }
        ensures left { self.new ≡ [] }
    {
        mem::replace(self, Rows::new(alloc))
    }

    /// Keeps the rows at these indices, in this order. None is moved.
    pub(crate) fn select(&mut self, alloc: Global, indices: &[usize]) -> Result<(), AllocError>
        requires inside { All (λ index. index < length self.old) indices.now }
        ensures ok { OnOk result (self.new ≡ map (λ index. slice_index_or self.old index []) indices.now) }
        ensures err { OnErr result (self.new ≡ self.old) }
    {
        self.pieces.select(alloc, indices)
    }
}

/// The rows that are still to come. Contracts see their list.
#[derive(Debug, Drop)]
pub struct RowsLeft<'a> {
    rows: &'a Rows,
    next: usize,
}

impl<'a> Model for RowsLeft<'a> {
    ghost use Rattle.std.specs.Prelude.{◌≤◌, drop, length};
    ghost use Rattle.tuple_core.specs.Values.{RowList};

    ghost Value = { RowList };

    ghost view = { λ l. drop l.next l.rows.now };

    ghost invariant = { λ l. l.next ≤ length l.rows.now };
}

impl<'a> Iterator for RowsLeft<'a> {
    type Item = EncodedRow<'a>;

    ghost next_gives = { YieldsFirstBy (λ row. row) (λ left. left) };

    ghost remaining = { item_count (λ left. left) };

    fn next(&mut self) -> Option<EncodedRow<'a>> {
        let rows = self.rows;
        if self.next == rows.len() {
            return None;
        }
        match rows.get(self.next) {
            Some(row) => {
                self.next += 1;
                Some(row)
            }
            None => unreachable!(),
        }
    }
}
