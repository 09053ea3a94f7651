//! How a row is read back from its encoding.

ghost use Rattle.std.specs.Prelude.{◌≡◌, ◌+◌, ◌≤◌, ℕ, drop, length, IfOk, IfErr, IfSome, option_map};
ghost use Rattle.std.specs.List.{AllByRecursion};
ghost use Rattle.tuple_core.specs.Decoding.{BeginsAt, GivesRow, GivesReading, TellsBad, text_bytes_and_rest, front_and_rest, integer_and_rest, row_and_rest, row_at, text_and_rest, truth_and_rest, value_and_rest, values_and_rest};
ghost use Rattle.tuple_core.specs.Encoding.{row_weight};
ghost use Rattle.tuple_core.specs.Values.{FitsValue, FitsRow};

use crate::encoding::{INTEGER, TEXT, TRUTH};
use crate::row::Row;
use crate::value::Value;
use med_prelude::Text;
use std::alloc::{AllocError, Global};
use thiserror::Error;

/// Why no row was read.
#[derive(Clone, Copy, Debug, PartialEq, Eq, Error)]
pub enum DecodeFault {
    #[error("no row's encoding begins at byte {at}")]
    Bad { at: usize },
    #[error("out of memory")]
    NoMemory,
}

// Why nothing was read from the start of some bytes.
#[derive(Clone, Copy)]
enum Unread {
    Bad,
    NoMemory,
}

#[tactic(auto, unfolding(crate::specs::Decoding::front_and_rest, crate::specs::Decoding::integer_and_rest))]
pub(crate) fn read_integer(bytes: &[u8]) -> Option<(i64, &[u8])>
    ensures { option_map (λ x. (x.0, x.1.now)) result ≡ integer_and_rest bytes.now }
{
    let (number, rest) = bytes.split_first_chunk::<8>()?;
    Some((u64::from_be_bytes(*number).cast_signed(), rest))
}

#[tactic(auto, unfolding(crate::specs::Decoding::truth_and_rest))]
pub(crate) fn read_truth(bytes: &[u8]) -> Option<(bool, &[u8])>
    ensures { option_map (λ x. (x.0, x.1.now)) result ≡ truth_and_rest bytes.now }
{
    match bytes.split_first() {
        Some((0, rest)) => Some((false, rest)),
        Some((1, rest)) => Some((true, rest)),
        _ => None,
    }
}

#[tactic(auto, unfolding(crate::specs::Decoding::front_and_rest, crate::specs::Decoding::text_bytes_and_rest))]
pub(crate) fn text_bytes(bytes: &[u8]) -> Option<(&[u8], &[u8])>
    ensures { option_map (λ x. (x.0.now, x.1.now)) result ≡ text_bytes_and_rest bytes.now }
{
    let (length, rest) = bytes.split_first_chunk::<4>()?;
    let length = u32::from_be_bytes(*length) as usize;
    if length > Value::LONGEST_TEXT {
        return None;
    }
    rest.split_at_checked(length)
}

#[tactic(auto, unfolding(crate::specs::Decoding::text_and_rest))]
fn read_text(alloc: Global, bytes: &[u8]) -> Result<(Text, &[u8]), Unread>
    ensures { GivesReading (λ x. (x.0, x.1.now)) result (text_and_rest bytes.now) }
{
    let (text, rest) = text_bytes(bytes).ok_or(Unread::Bad)?;
    match Text::from_utf8(alloc, text) {
        Ok(Some(text)) => Ok((text, rest)),
        Ok(None) => Err(Unread::Bad),
        Err(AllocError) => Err(Unread::NoMemory),
    }
}

#[tactic(auto, unfolding(crate::specs::Decoding::value_and_rest))]
fn read_value(alloc: Global, bytes: &[u8]) -> Result<(Value, &[u8]), Unread>
    ensures { GivesReading (λ x. (x.0, x.1.now)) result (value_and_rest bytes.now) }
{
    let (kind, bytes) = bytes.split_first().ok_or(Unread::Bad)?;
    match *kind {
        INTEGER => {
            let (number, rest) = read_integer(bytes).ok_or(Unread::Bad)?;
            Ok((Value::Int(number), rest))
        }
        TEXT => {
            let (text, rest) = read_text(alloc, bytes)?;
            Ok((Value::Text(text), rest))
        }
        TRUTH => {
            let (truth, rest) = read_truth(bytes).ok_or(Unread::Bad)?;
            Ok((Value::Bool(truth), rest))
        }
        _ => Err(Unread::Bad),
    }
}

fn read_values(alloc: Global, count: usize, bytes: &[u8]) -> Result<(Vec<Value>, &[u8]), Unread>
    ensures { GivesReading (λ x. (x.0.items, x.1.now)) result (values_and_rest count bytes.now) }
{
    let mut rest = bytes;
    let mut values = Vec::with_capacity(alloc, count).map_err(|_| Unread::NoMemory)?;
    'values: for _ in 0..count {
        let (value, after) = read_value(alloc, rest)?;
        values.push(value).map_err(|_| Unread::NoMemory)?;
        rest = after;
    }
    Ok((values, rest))
}

#[tactic(auto, unfolding(crate::specs::Decoding::row_and_rest))]
fn read_row(alloc: Global, bytes: &[u8]) -> Result<(Row, &[u8]), Unread>
    ensures { GivesReading (λ x. (x.0, x.1.now)) result (row_and_rest bytes.now) }
{
    let (count, bytes) = bytes.split_first().ok_or(Unread::Bad)?;
    let count = usize::from(*count);
    if count > Row::MOST_VALUES {
        return Err(Unread::Bad);
    }
    let (values, rest) = read_values(alloc, count, bytes)?;
    Ok((Row::new(values), rest))
}

/// Reads the row whose encoding begins at an offset, which may be any number, and tells the offset directly
/// after its encoding.
pub fn decode(alloc: Global, bytes: &[u8], at: usize) -> Result<(Row, usize), DecodeFault>
    ensures row { IfOk result (λ read. BeginsAt bytes.now at read.0) }
    ensures after { IfOk result (λ read. read.1 ≡ at + row_weight read.0) }
    ensures bad { IfErr result (TellsBad bytes.now at) }
    ensures reads { GivesRow result (row_at (drop at bytes.now)) }
{
    let Some((_, from)) = bytes.split_at_checked(at) else {
        return Err(DecodeFault::Bad { at });
    };
    match read_row(alloc, from) {
        Ok((row, rest)) => Ok((row, bytes.len() - rest.len())),
        Err(Unread::Bad) => Err(DecodeFault::Bad { at }),
        Err(Unread::NoMemory) => Err(DecodeFault::NoMemory),
    }
}
