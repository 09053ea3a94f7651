//! How a value is read from its text.

ghost use Rattle.std.specs.Prelude.{◌≡◌, ◌≢◌, ◌+◌, ◌-◌, ◌*◌, ◌^◌, ◌≤◌, ◌&&◌, nat_le, pos, neg_ℤ, IsOk, IfOk, IfSome, Some, None, if◌then◌else◌};
ghost use Rattle.std.specs.Char.{is_ascii_digit};
ghost use Rattle.tuple_core.specs.Parsing.{field_value, numeral, parsed_value, parsed_integer, parsed_text, parsed_truth};
ghost use Rattle.tuple_core.specs.Values.{FitsValue};

use crate::columns::{Column, Kind};
use crate::value::Value;
use med_prelude::Text;
use std::alloc::{AllocError, Global};

// The number with one more digit, where the byte is one and the number is at most `most`.
fn with_digit(number: u64, digit: u8, most: u64) -> Option<u64>
    ensures { result ≡ (if is_ascii_digit digit && nat_le (number * 10 + (digit - 48)) most then Some (number * 10 + (digit - 48)) else None) }
{
    if !digit.is_ascii_digit() {
        return None;
    }
    let next = number
        .checked_mul(10)?
        .checked_add(u64::from(digit - b'0'))?;
    (next <= most).then_some(next)
}

/// The number that one or more decimal digits write, where it is at most `most`. They may begin with zeros.
pub fn numeral(digits: &[u8], most: u64) -> Option<u64>
    ensures { result ≡ numeral most digits.now }
{
    if digits.is_empty() {
        return None;
    }
    let mut number = 0u64;
    for digit in digits {
        number = with_digit(number, *digit, most)?;
    }
    Some(number)
}

const GREATEST: u64 = i64::MAX as u64;

fn negative(number: u64) -> i64
    requires { number ≤ 2 ^ 63 }
    ensures { result ≡ neg_ℤ (pos number) }
{
    if number > GREATEST {
        i64::MIN
    } else {
        -(number as i64)
    }
}

fn parse_integer(bytes: &[u8]) -> Option<i64>
    ensures { result ≡ parsed_integer bytes.now }
{
    match bytes.split_first() {
        None => None,
        Some((b'-', digits)) => {
            let number = numeral(digits, GREATEST + 1)?;
            Some(negative(number))
        }
        Some(_) => {
            let number = numeral(bytes, GREATEST)?;
            Some(number as i64)
        }
    }
}

fn parse_truth(bytes: &[u8]) -> Option<bool>
    ensures { result ≡ parsed_truth bytes.now }
{
    if bytes == b"true".as_slice() {
        Some(true)
    } else if bytes == b"false".as_slice() {
        Some(false)
    } else {
        None
    }
}

fn parse_text(alloc: Global, bytes: &[u8]) -> Result<Option<Text>, AllocError>
    ensures { IfOk result (λ text. text ≡ parsed_text bytes.now) }
{
    if bytes.len() > Value::LONGEST_TEXT {
        return Ok(None);
    }
    Text::from_utf8(alloc, bytes)
}

/// The value of the kind whose text the bytes are; there may be none. Only for a text is memory taken.
pub fn parse_value(alloc: Global, kind: Kind, bytes: &[u8]) -> Result<Option<Value>, AllocError>
    ensures value { IfOk result (λ value. value ≡ parsed_value kind bytes.now) }
    ensures fits { IfOk result (λ value. IfSome value FitsValue) }
    ensures no_memory { kind ≢ Kind.Text → IsOk result }
{
    match kind {
        Kind::Int => Ok(parse_integer(bytes).map(Value::Int)),
        Kind::Text => Ok(parse_text(alloc, bytes)?.map(Value::Text)),
        Kind::Bool => Ok(parse_truth(bytes).map(Value::Bool)),
    }
}

/// The value that a field of a source has in the column; there may be none. Only for a text is memory taken.
pub fn field_value(
    alloc: Global,
    column: &Column,
    field: &[u8],
) -> Result<Option<Value>, AllocError>
    ensures value { IfOk result (λ value. value ≡ field_value column.now field.now) }
    ensures fits { IfOk result (λ value. IfSome value FitsValue) }
    ensures no_memory { column.now.kind ≢ Kind.Text → IsOk result }
{
    parse_value(alloc, column.kind, field)
}
