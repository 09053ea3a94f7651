//! The bytes that stand for a row, in spill files, in memory and in keys.

ghost use Rattle.std.specs.Prelude.{◌≡◌, ◌+◌, ◌≤◌, ◌++◌, length, vec_len, vec_capacity, IsOk, OnOk, OnErr};
ghost use Rattle.tuple_core.specs.Encoding.{greatest_value_weight, greatest_weight, row_encoding, row_weight, value_encoding, value_weight};
ghost use Rattle.tuple_core.specs.Values.{FitsRow, FitsValue, longest_text};

use crate::row::Row;
use crate::value::Value;
use std::alloc::{AllocError, Global};

pub(crate) const INTEGER: u8 = 1;

pub(crate) const TEXT: u8 = 2;

pub(crate) const TRUTH: u8 = 3;

fn value_weight(value: &Value) -> u64
    requires { FitsValue value.now }
    ensures weight { result ≡ value_weight value.now }
    ensures bound { result ≤ greatest_value_weight }
{
    match value {
        Value::Int(_) => 9,
        Value::Text(text) => 5 + text.as_bytes().len() as u64,
        Value::Bool(_) => 2,
    }
}

/// The length of the row's encoding, in bytes.
pub fn weight(row: &Row) -> u64
    ensures weight { result ≡ row_weight row.now }
    ensures bound { result ≤ greatest_weight }
    ensures fits { FitsRow row.now }
{
    let mut weight = 1u64;
    for value in row.values() {
        weight += value_weight(value);
    }
    weight
}

// Appends bytes for which there is room.
pub(crate) fn put(bytes: &[u8], into: &mut Vec<u8>)
    requires { vec_len into.old + length bytes.now ≤ vec_capacity into.old }
    ensures items { into.new.items ≡ into.old.items ++ bytes.now }
    ensures len { vec_len into.new ≡ vec_len into.old + length bytes.now }
    ensures capacity { vec_capacity into.old ≤ vec_capacity into.new }
{
    match into.extend_from_slice(bytes) {
        Ok(()) => {}
        Err(AllocError) => unreachable!(),
    }
}

fn put_integer(number: i64, into: &mut Vec<u8>)
    requires { vec_len into.old + 9 ≤ vec_capacity into.old }
    ensures items { into.new.items ≡ into.old.items ++ value_encoding (Value.Int number) }
    ensures len { vec_len into.new ≡ vec_len into.old + 9 }
    ensures capacity { vec_capacity into.old ≤ vec_capacity into.new }
{
    put(&[INTEGER], into);
    put(&number.cast_unsigned().to_be_bytes(), into);
}

fn put_text(bytes: &[u8], into: &mut Vec<u8>)
    requires short { length bytes.now ≤ longest_text }
    requires room { vec_len into.old + (5 + length bytes.now) ≤ vec_capacity into.old }
    ensures items { into.new.items ≡ into.old.items ++ value_encoding (Value.Text bytes.now) }
    ensures len { vec_len into.new ≡ vec_len into.old + (5 + length bytes.now) }
    ensures capacity { vec_capacity into.old ≤ vec_capacity into.new }
{
    put(&[TEXT], into);
    put(&(bytes.len() as u32).to_be_bytes(), into);
    put(bytes, into);
}

pub(crate) fn put_value(value: &Value, into: &mut Vec<u8>)
    requires fits { FitsValue value.now }
    requires room { vec_len into.old + value_weight value.now ≤ vec_capacity into.old }
    ensures items { into.new.items ≡ into.old.items ++ value_encoding value.now }
    ensures len { vec_len into.new ≡ vec_len into.old + value_weight value.now }
    ensures capacity { vec_capacity into.old ≤ vec_capacity into.new }
{
    match value {
        Value::Int(number) => put_integer(*number, into),
        Value::Text(text) => put_text(text.as_bytes(), into),
        Value::Bool(truth) => put(&[TRUTH, u8::from(*truth)], into),
    }
}

/// Appends the row's encoding. Where memory runs out, nothing is appended; where there is room for the
/// row's weight, no memory is asked for.
pub fn encode(_alloc: Global, row: &Row, into: &mut Vec<u8>) -> Result<(), AllocError>
    ensures ok { OnOk result (into.new.items ≡ into.old.items ++ row_encoding row.now) }
    ensures err { OnErr result (into.new.items ≡ into.old.items) }
    ensures succeeds { vec_len into.old + row_weight row.now ≤ vec_capacity into.old → IsOk result }
    ensures capacity { vec_capacity into.old ≤ vec_capacity into.new }
{
    into.reserve(weight(row) as usize)?;
    let values = row.values();
    put(&[values.len() as u8], into);
    for value in values {
        put_value(value, into);
    }
    Ok(())
}
