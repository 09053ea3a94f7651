//! Room in which a key is written, as the encoding of some of a row's values.

ghost use Rattle.std.specs.Prelude.{◌≡◌, ◌+◌, ◌≤◌, ◌++◌, [], ◌∷◌, length, slice_get, vec_len, vec_capacity, IfOk};
ghost use Rattle.std.specs.List.{cons_option, filter_map, flat_map};
ghost use Rattle.tuple_core.specs.Encoding.{greatest_value_weight, greatest_weight, row_encoding, value_encoding};
ghost use Rattle.tuple_core.specs.Values.{FitsRow, RowValues, most_values};

use crate::encoding::{put, put_value};
use crate::row::Row;
use std::alloc::{AllocError, Global};
use std::marker::Model;

/// Room for the encoding of any row, which is taken once. Contracts see the key that was written last.
#[derive(Debug, Drop)]
pub struct KeyRoom {
    bytes: Vec<u8>,
}

impl Model for KeyRoom {
    ghost use Rattle.std.specs.Prelude.{◌≤◌, vec_capacity};
    ghost use Rattle.med_prelude.specs.Texts.{Bytes};
    ghost use Rattle.tuple_core.specs.Encoding.{greatest_weight};

    ghost Value = { Bytes };

    ghost view = { λ k. k.bytes.items };

    ghost invariant = { λ k. greatest_weight ≤ vec_capacity k.bytes };
}

fn put_at(row: &Row, position: usize, into: &mut Vec<u8>)
    requires { vec_len into.old + greatest_value_weight ≤ vec_capacity into.old }
    ensures items { into.new.items ≡ into.old.items ++ flat_map value_encoding (cons_option (slice_get row.now position) []) }
    ensures len { vec_len into.new ≤ vec_len into.old + greatest_value_weight }
    ensures capacity { vec_capacity into.old ≤ vec_capacity into.new }
{
    if let Some(value) = row.values().get(position) {
        put_value(value, into);
    }
}

fn fill(row: &Row, positions: &[usize], bytes: &mut Vec<u8>)
    requires short { length positions.now ≤ most_values }
    requires room { greatest_weight ≤ vec_capacity bytes.old }
    ensures items { bytes.new.items ≡ length positions.now ∷ flat_map value_encoding (filter_map (slice_get row.now) positions.now) }
    ensures capacity { greatest_weight ≤ vec_capacity bytes.new }
{
    bytes.clear();
    put(&[positions.len() as u8], bytes);
    for position in positions {
        put_at(row, *position, bytes);
    }
}

impl KeyRoom {
    /// Room with no key in it yet.
    pub fn new(alloc: Global) -> Result<KeyRoom, AllocError>
        ensures { IfOk result (λ room. room ≡ []) }
    {
        Ok(KeyRoom {
            bytes: Vec::with_capacity(alloc, Row::GREATEST_WEIGHT as usize)?,
        })
    }

    /// The bytes that there is room for, among them the key of any row.
    pub fn capacity(&self) -> usize
        ensures size { greatest_weight ≤ result }
        ensures fits { (row : RowValues) → FitsRow row → length (row_encoding row) ≤ result }
    {
        self.bytes.capacity()
    }

    /// The key that was written last, and no bytes before that.
    pub fn as_slice(&self) -> &[u8]
        ensures { result.now ≡ self.now }
    {
        self.bytes.as_slice()
    }

    /// Writes the key of the row's values at the positions over what was written before. It takes no memory.
    pub fn write(&mut self, row: &Row, positions: &[usize])
        requires short { length positions.now ≤ most_values }
        requires inside { length (filter_map (slice_get row.now) positions.now) ≡ length positions.now }
        ensures key { self.new ≡ row_encoding (filter_map (slice_get row.now) positions.now) }
    {
        fill(row, positions, &mut self.bytes);
    }
}
