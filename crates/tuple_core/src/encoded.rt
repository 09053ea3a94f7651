//! Rows that are read in place, from their encodings, without taking memory.

ghost use Rattle.std.specs.Prelude.{◌≡◌, IfOk, option_map, refl, Some};
ghost use Rattle.std.specs.Cmp.{partial_equiv_from_equiv};
ghost use Rattle.std.specs.Iterator.{YieldsFirstBy, item_count};
ghost use Rattle.tuple_core.specs.Encoded.{IsEncoding, row_of, seen_and_rest, value_seen};
ghost use Rattle.tuple_core.specs.Encoding.{row_encoding};
ghost use Rattle.tuple_core.specs.Order.{row_eq, rows_equiv, rows_total, rows_tie, rows_po};
ghost use Rattle.tuple_core.specs.Values.{FitsRow, FitsValue, row_cmp, value_cmp};

use crate::decoding::{DecodeFault, decode, read_integer, read_truth, text_bytes};
use crate::encoding::{INTEGER, TEXT, TRUTH};
use crate::row::Row;
use crate::value::Value;
use med_prelude::Text;
use std::alloc::{AllocError, Global};
use std::cmp::Ordering;
use std::marker::Model;

/// A value that lies in an encoding. A text is UTF-8, as its row's is.
#[derive(Clone, Copy, Debug)]
pub enum ValueRef<'a> {
    Int(i64),
    Text(&'a [u8]),
    Bool(bool),
}

impl ValueRef<'_> {
    /// The value, with its own memory.
    pub fn to_value(self, alloc: Global) -> Result<Value, AllocError>
        requires { FitsValue (value_seen self) }
        ensures { IfOk result (λ value. value ≡ value_seen self.entry) }
    {
        match self {
            ValueRef::Int(number) => Ok(Value::Int(number)),
            ValueRef::Text(bytes) => match Text::from_utf8(alloc, bytes)? {
                Some(text) => Ok(Value::Text(text)),
                None => unreachable!(),
            },
            ValueRef::Bool(truth) => Ok(Value::Bool(truth)),
        }
    }
}

/// A row that lies as its encoding. Contracts see its values.
#[derive(Debug, Drop)]
pub struct EncodedRow<'a> {
    bytes: &'a [u8],
}

impl<'a> Model for EncodedRow<'a> {
    ghost use Rattle.tuple_core.specs.Encoded.{IsEncoding, row_of};
    ghost use Rattle.tuple_core.specs.Values.{RowValues};

    ghost Value = { RowValues };

    ghost view = { λ r. row_of r.bytes.now };

    ghost invariant = { λ r. IsEncoding r.bytes.now };
}

impl<'a> EncodedRow<'a> {
    /// The row whose encoding these bytes are.
    pub fn of(bytes: &'a [u8]) -> EncodedRow<'a>
        requires { IsEncoding bytes.now }
        ensures { result ≡ row_of bytes.now }
    {
        EncodedRow { bytes }
    }

    /// The encoding.
    pub fn bytes(&self) -> &'a [u8]
        ensures encoding { result.now ≡ row_encoding self.now }
        ensures fits { FitsRow self.now }
    {
        self.bytes
    }

    /// The row, with its own memory.
    pub fn to_row(&self, alloc: Global) -> Result<Row, AllocError>
        ensures { IfOk result (λ row. row ≡ self.now) }
    {
        match decode(alloc, self.bytes, 0) {
            Ok((row, _)) => Ok(row),
            Err(DecodeFault::NoMemory) => Err(AllocError),
            Err(DecodeFault::Bad { .. }) => unreachable!(),
        }
    }

    /// The values from left to right.
    pub fn values(&self) -> EncodedValues<'a>
        ensures value { result ≡ self.now }
        ensures fits { FitsRow self.now }
    {
        match self.bytes.split_first() {
            Some((count, bytes)) => EncodedValues {
                count: *count,
                bytes,
            },
            None => unreachable!(),
        }
    }
}

/// The values of a row that are still to come. Contracts see their list.
#[derive(Debug, Drop)]
pub struct EncodedValues<'a> {
    count: u8,
    bytes: &'a [u8],
}

impl<'a> Model for EncodedValues<'a> {
    ghost use Rattle.tuple_core.specs.Encoded.{AreEncodings, values_left};
    ghost use Rattle.tuple_core.specs.Values.{RowValues};

    ghost Value = { RowValues };

    ghost view = { λ v. values_left v.count v.bytes.now };

    ghost invariant = { λ v. AreEncodings v.count v.bytes.now };
}

// The value that the bytes begin with, and the bytes behind it.
#[tactic(auto, unfolding(crate::specs::Encoded::seen_and_rest))]
fn see_value(bytes: &[u8]) -> Option<(ValueRef<'_>, &[u8])>
    ensures { option_map (λ x. (value_seen x.0, x.1.now)) result ≡ seen_and_rest bytes.now }
{
    let (kind, bytes) = bytes.split_first()?;
    match *kind {
        INTEGER => {
            let (number, rest) = read_integer(bytes)?;
            Some((ValueRef::Int(number), rest))
        }
        TEXT => {
            let (text, rest) = text_bytes(bytes)?;
            Some((ValueRef::Text(text), rest))
        }
        TRUTH => {
            let (truth, rest) = read_truth(bytes)?;
            Some((ValueRef::Bool(truth), rest))
        }
        _ => None,
    }
}

impl<'a> Iterator for EncodedValues<'a> {
    type Item = ValueRef<'a>;

    ghost next_gives = { YieldsFirstBy value_seen (λ values. values) };

    ghost remaining = { item_count (λ values. values) };

    fn next(&mut self) -> Option<ValueRef<'a>> {
        if self.count == 0 {
            return None;
        }
        match see_value(self.bytes) {
            Some((value, rest)) => {
                self.count -= 1;
                self.bytes = rest;
                Some(value)
            }
            None => unreachable!(),
        }
    }
}

fn value_order(x: ValueRef<'_>, y: ValueRef<'_>) -> Ordering
    ensures { result ≡ value_cmp (value_seen x.entry) (value_seen y.entry) }
{
    match (x, y) {
        (ValueRef::Int(x), ValueRef::Int(y)) => x.cmp(&y),
        (ValueRef::Text(x), ValueRef::Text(y)) => x.cmp(&y),
        (ValueRef::Bool(x), ValueRef::Bool(y)) => x.cmp(&y),
        (ValueRef::Int(_), _) | (ValueRef::Text(_), ValueRef::Bool(_)) => Ordering::Less,
        (ValueRef::Text(_), ValueRef::Int(_)) | (ValueRef::Bool(_), _) => Ordering::Greater,
    }
}

fn values_order(left: EncodedValues<'_>, mut right: EncodedValues<'_>) -> Ordering
    ensures { result ≡ row_cmp left.entry right.entry }
{
    for value in left {
        let Some(other) = right.next() else {
            return Ordering::Greater;
        };
        let order = value_order(value, other);
        if order.is_ne() {
            return order;
        }
    }
    match right.next() {
        Some(_) => Ordering::Less,
        None => Ordering::Equal,
    }
}

impl PartialEq for EncodedRow<'_> {
    ghost eq = { row_eq };

    ghost laws = { partial_equiv_from_equiv rows_equiv };

    fn eq(&self, other: &Self) -> bool {
        self.bytes == other.bytes
    }
}

impl Eq for EncodedRow<'_> {
    ghost laws = { rows_equiv };
}

impl PartialOrd for EncodedRow<'_> {
    ghost partial_cmp = { λ x y. Some (row_cmp x y) };

    ghost laws = { rows_po };

    fn partial_cmp(&self, other: &Self) -> Option<Ordering> {
        Some(self.cmp(other))
    }
}

impl Ord for EncodedRow<'_> {
    ghost cmp = { row_cmp };

    ghost total = { rows_total };

    ghost matches_partial_cmp = { λ x y. refl };

    ghost matches_eq = { rows_tie };

    fn cmp(&self, other: &Self) -> Ordering {
        values_order(self.values(), other.values())
    }
}
