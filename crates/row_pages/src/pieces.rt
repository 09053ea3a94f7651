//! A list of byte strings that lie in pages.

ghost use Rattle.std.specs.Prelude.{◌≡◌, ◌==◌, ◌<◌, ◌++◌, [], ◌∷◌, length, map, slice_get, slice_index_or, option_map, All, OnOk, OnErr};
ghost use Rattle.med_prelude.specs.Texts.{Bytes};
ghost use Rattle.tuple_core.specs.Encoding.{row_encoding};
ghost use Rattle.tuple_core.specs.Values.{FitsRow};

use crate::pages::{Pages, Spot};
use std::alloc::{AllocError, Global};
use std::marker::Model;
use std::mem;
use tuple_core::Row;

/// Byte strings, of which contracts see the list. Each lies in a page of 64 KiB, or in one of its own where it is longer.
#[derive(Debug, Drop)]
pub struct Pieces {
    pages: Pages,
    spots: Vec<Spot>,
}

impl Model for Pieces {
    ghost use Rattle.std.specs.Prelude.{List, All, map};
    ghost use Rattle.med_prelude.specs.Texts.{Bytes};
    ghost use Rattle.row_pages.specs.Lying.{Lies, piece_at};

    ghost Value = { List Bytes };

    ghost view = { λ p. map (piece_at p.pages) p.spots.items };

    ghost invariant = { λ p. All (Lies p.pages) p.spots.items };
}

impl Pieces {
    /// The empty list, which holds no memory.
    pub fn new(alloc: Global) -> Pieces
        ensures { result ≡ [] }
    {
        Pieces {
            pages: Pages::new(alloc),
            spots: Vec::new(alloc),
        }
    }

    pub fn len(&self) -> usize
        ensures { result ≡ length self.now }
    {
        self.spots.len()
    }

    pub fn is_empty(&self) -> bool
        ensures { result ≡ (length self.now == 0) }
    {
        self.len() == 0
    }

    /// Puts a byte string at the end. Where memory runs out, or at a byte string or a number of pages of 2^32, the list
    /// is as it was.
    pub fn push(&mut self, alloc: Global, piece: &[u8]) -> Result<(), AllocError>
        ensures ok { OnOk result (self.new ≡ self.old ++ piece.now ∷ []) }
        ensures err { OnErr result (self.new ≡ self.old) }
    {
        let spot = self.pages.put(alloc, piece)?;
        self.spots.push(spot)?;
        Ok(())
    }

    /// Puts at the end, as one byte string, some bytes and directly behind them the encoding of a row.
    pub fn push_row(&mut self, alloc: Global, front: &[u8], row: &Row) -> Result<(), AllocError>
        ensures ok { OnOk result (self.new ≡ self.old ++ (front.now ++ row_encoding row.now) ∷ []) }
        ensures fits { FitsRow row.now }
        ensures err { OnErr result (self.new ≡ self.old) }
    {
        let spot = self.pages.put_row(alloc, front, row)?;
        self.spots.push(spot)?;
        Ok(())
    }

    /// The byte string at an index, where it lies.
    pub fn get(&self, index: usize) -> Option<&[u8]>
        ensures { option_map (λ piece. piece.now) result ≡ slice_get self.now index }
    {
        let spot = *self.spots.get(index)?;
        Some(self.pages.piece(spot))
    }

    /// Hands all byte strings on, and leaves none. It takes no memory.
    pub fn take(&mut self, alloc: Global) -> Pieces
        ensures taken { result ≡ self.old }
        ensures left { self.new ≡ [] }
    {
        mem::replace(self, Pieces::new(alloc))
    }

    /// Keeps the byte strings at these indices, in this order. None is moved.
    pub fn select(&mut self, alloc: Global, indices: &[usize]) -> Result<(), AllocError>
        requires inside { All (λ index. index < length self.old) indices.now }
        ensures ok { OnOk result (self.new ≡ map (λ index. slice_index_or self.old index []) indices.now) }
        ensures err { OnErr result (self.new ≡ self.old) }
    {
        let mut spots = Vec::with_capacity(alloc, indices.len())?;
        for chosen in indices {
            spots.push(self.spots[*chosen])?;
        }
        self.spots = spots;
        Ok(())
    }
}
