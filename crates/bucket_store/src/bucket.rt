//! A bucket: rows whose keys have one bucket, in the order in which they came.

ghost use Rattle.std.specs.Prelude.{◌≡◌, ◌<◌, ◌+◌, ◌^◌, ◌++◌, [], ◌∷◌, length, slice_index_or, OnOk, OnErr, IfOk, IfSome};
ghost use Rattle.tuple_core.specs.Encoded.{IsEncoding, row_of};
ghost use Rattle.bucket_store.specs.Held.{has_key, no_row, rows_weight};
ghost use Rattle.bucket_store.specs.Keys.{key_hash};
ghost use Rattle.bucket_store.specs.Places.{next_place};

use crate::chains::Chains;
use row_pages::{Pages, Spot};
use std::alloc::{AllocError, Global};
use std::marker::Model;
use tuple_core::{EncodedRow, Row, weight};

/// Where a row and its key lie, and the number with which the row came.
#[derive(Clone, Copy, Debug)]
pub struct Stored {
    number: u64,
    spot: Spot,
    key_length: u32,
}

impl Stored {
    /// The number with which the row came.
    pub fn number(&self) -> u64
        ensures { result ≡ self.now.number }
    {
        self.number
    }
}

/// Rows, of which contracts see the list with their keys and numbers.
#[derive(Debug, Drop)]
pub struct Bucket {
    pages: Pages,
    entries: Vec<Stored>,
    chains: Chains,
    weight: u64,
}

impl Model for Bucket {
    ghost use Rattle.std.specs.Prelude.{map};
    ghost use Rattle.bucket_store.specs.Held.{HeldList};
    ghost use Rattle.bucket_store.specs.Stored.{AreStored, held_at};

    ghost Value = { HeldList };

    ghost view = { λ b. map (held_at b.pages) b.entries.items };

    ghost invariant = { λ b. AreStored b.pages b.entries.items b.chains b.weight };
}

impl Bucket {
    /// No rows, which hold no memory.
    pub fn new(alloc: Global) -> Bucket
        ensures { result ≡ [] }
    {
        Bucket {
            pages: Pages::new(alloc),
            entries: Vec::new(alloc),
            chains: Chains::new(alloc),
            weight: 0,
        }
    }

    pub fn len(&self) -> usize
        ensures { result ≡ length self.now }
    {
        self.entries.len()
    }

    /// How heavy the rows are: the bytes of their encodings, without their keys.
    pub fn weight(&self) -> u64
        ensures { result ≡ rows_weight self.now }
    {
        self.weight
    }

    /// Puts a row behind the others. Where memory runs out, or at 2^32 - 1 rows or 2^32 bytes of a row with its key, the
    /// bucket is as it was. Room for what finds the row is made before its bytes are put, so that a row which is tried
    /// again and again leaves no bytes.
    pub(crate) fn push(
        &mut self,
        alloc: Global,
        key: &[u8],
        hash: u32,
        row: &Row,
        number: u64,
    ) -> Result<(), AllocError>
        requires { hash ≡ key_hash key.now }
        ensures ok { OnOk result (self.new ≡ self.old ++ record { key = key.now; row = row.now; number = number } ∷ []) }
        ensures err { OnErr result (self.new ≡ self.old) }
    {
        let Ok(key_length) = u32::try_from(key.len()) else {
            return Err(AllocError);
        };
        let Some(weight) = self.weight.checked_add(weight(row)) else {
            return Err(AllocError);
        };
        self.entries.reserve(1)?;
        self.chains.reserve(alloc)?;
        let spot = self.pages.put_row(alloc, key, row)?;
        self.chains.push(alloc, hash)?;
        self.weight = weight;
        match self.entries.push(Stored {
            number,
            spot,
            key_length,
        }) {
            Ok(()) => Ok(()),
            Err(_) => unreachable!(),
        }
    }

    fn piece_at(&self, place: usize) -> (&[u8], &[u8])
        requires { place < length self.now }
        ensures key { result.0.now ≡ (slice_index_or self.now place no_row).key }
        ensures row { IsEncoding result.1.now × (row_of result.1.now ≡ (slice_index_or self.now place no_row).row) }
    {
        let stored = self.entries[place];
        self.pages
            .piece(stored.spot)
            .split_at(stored.key_length as usize)
    }

    /// The first place, at or after one, of a row that has the key.
    pub(crate) fn next(&self, key: &[u8], hash: u32, from: usize) -> Option<u32>
        requires { hash ≡ key_hash key.now }
        ensures next { result ≡ next_place (has_key key.now) self.now from }
        ensures few { IfSome result (λ place. place + 1 < 2 ^ 32) }
    {
        let mut from = from;
        while let Some(place) = self.chains.next(hash, from) {
            if self.piece_at(place as usize).0 == key {
                return Some(place);
            }
            from = place as usize + 1;
        }
        None
    }

    /// The row at a place, where it lies.
    pub fn row(&self, place: usize) -> EncodedRow<'_>
        requires { place < length self.now }
        ensures { result ≡ (slice_index_or self.now place no_row).row }
    {
        EncodedRow::of(self.piece_at(place).1)
    }

    /// Where the row at a place lies, and its number.
    pub fn entry(&self, place: usize) -> &Stored
        requires { place < length self.now }
        ensures { result.now.number ≡ (slice_index_or self.now place no_row).number }
    {
        &self.entries[place]
    }
}

#[cfg(test)]
impl Bucket {
    /// How many rows the longest chain has.
    pub(crate) fn longest_chain(&self, alloc: Global) -> Result<usize, AllocError> {
        self.chains.longest(alloc)
    }
}
