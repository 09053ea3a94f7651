//! The entry that bytes begin with, where it lies.

ghost use Rattle.std.specs.Prelude.{◌≡◌, ◌<◌, length, option_map, IfSome, Some};
ghost use Rattle.std.specs.Int.{w32, from_be_bytes};
ghost use Rattle.std.specs.Str.{is_utf8};
ghost use Rattle.spill_blocks.specs.Reading.{BeginsWith, entry_and_rest, number_and_rest, wide_row_and_rest};
ghost use Rattle.tuple_core.specs.Decoding.{front_and_rest, integer_and_rest, text_and_rest, text_bytes_and_rest, truth_and_rest, value_and_rest, values_and_rest};

use crate::entries::Kept;
use crate::form::EntryForm;
use tuple_core::{EncodedRow, Row, Value};

// The bytes of a text that may or may not be UTF-8, and the bytes behind them.
#[tactic(auto, unfolding(tuple_core::specs::Decoding::front_and_rest, tuple_core::specs::Decoding::text_bytes_and_rest))]
fn text_front(bytes: &[u8]) -> Option<(&[u8], &[u8])>
    ensures { option_map (λ x. (x.0.now, x.1.now)) result ≡ text_bytes_and_rest bytes.now }
{
    let (length, rest) = bytes.split_first_chunk::<4>()?;
    let length = u32::from_be_bytes(*length) as usize;
    if length > Value::LONGEST_TEXT {
        return None;
    }
    rest.split_at_checked(length)
}

fn is_text(bytes: &[u8]) -> bool
    ensures { result ≡ is_utf8 bytes.now }
{
    match str::from_utf8(bytes) {
        Ok(_) => true,
        Err(_) => false,
    }
}

// The bytes behind a text, where it is one.
#[tactic(auto, unfolding(tuple_core::specs::Decoding::text_and_rest))]
fn after_text(bytes: &[u8]) -> Option<&[u8]>
    ensures { option_map (λ rest. rest.now) result ≡ option_map (λ x. x.1) (text_and_rest bytes.now) }
{
    let (text, rest) = text_front(bytes)?;
    if is_text(text) { Some(rest) } else { None }
}

#[tactic(auto, unfolding(tuple_core::specs::Decoding::front_and_rest, tuple_core::specs::Decoding::integer_and_rest))]
fn after_integer(bytes: &[u8]) -> Option<&[u8]>
    ensures { option_map (λ rest. rest.now) result ≡ option_map (λ x. x.1) (integer_and_rest bytes.now) }
{
    let (_, rest) = bytes.split_first_chunk::<8>()?;
    Some(rest)
}

#[tactic(auto, unfolding(tuple_core::specs::Decoding::truth_and_rest))]
fn after_truth(bytes: &[u8]) -> Option<&[u8]>
    ensures { option_map (λ rest. rest.now) result ≡ option_map (λ x. x.1) (truth_and_rest bytes.now) }
{
    match bytes.split_first() {
        Some((0 | 1, rest)) => Some(rest),
        _ => None,
    }
}

// The bytes behind the value that the bytes begin with.
#[tactic(auto, unfolding(tuple_core::specs::Decoding::value_and_rest))]
fn after_value(bytes: &[u8]) -> Option<&[u8]>
    ensures { option_map (λ rest. rest.now) result ≡ option_map (λ x. x.1) (value_and_rest bytes.now) }
{
    let (kind, bytes) = bytes.split_first()?;
    match *kind {
        1 => after_integer(bytes),
        2 => after_text(bytes),
        3 => after_truth(bytes),
        _ => None,
    }
}

// The bytes behind so many values.
fn after_values(count: u8, bytes: &[u8]) -> Option<&[u8]>
    ensures { option_map (λ rest. rest.now) result ≡ option_map (λ x. x.1) (values_and_rest count bytes.now) }
{
    let mut rest = bytes;
    'values: for _ in 0..count {
        rest = after_value(rest)?;
    }
    Some(rest)
}

// The bytes behind a row of so many values.
fn after_row(width: u8, bytes: &[u8]) -> Option<&[u8]>
    ensures { option_map (λ rest. rest.now) result ≡ option_map (λ x. x.1) (wide_row_and_rest width bytes.now) }
{
    let (count, bytes) = bytes.split_first()?;
    if *count != width {
        return None;
    }
    if usize::from(width) > Row::MOST_VALUES {
        return None;
    }
    after_values(width, bytes)
}

fn first_row(width: u8, bytes: &[u8]) -> Option<(EncodedRow<'_>, &[u8])>
    ensures { option_map (λ x. (x.0, x.1.now)) result ≡ wide_row_and_rest width bytes.now }
{
    let rest = after_row(width, bytes)?;
    let (row, rest) = bytes.split_at(bytes.len() - rest.len());
    Some((EncodedRow::of(row), rest))
}

#[tactic(auto, unfolding(tuple_core::specs::Decoding::front_and_rest, crate::specs::Reading::number_and_rest))]
fn first_number(bytes: &[u8]) -> Option<(u64, &[u8])>
    ensures { option_map (λ x. (x.0, x.1.now)) result ≡ number_and_rest bytes.now }
{
    let (number, rest) = bytes.split_first_chunk::<8>()?;
    Some((u64::from_be_bytes(*number), rest))
}

#[tactic(auto, unfolding(crate::specs::Reading::entry_and_rest))]
fn see_entry(form: EntryForm, width: u8, bytes: &[u8]) -> Option<(Kept<'_>, &[u8])>
    ensures { option_map (λ x. (x.0, x.1.now)) result ≡ entry_and_rest form width bytes.now }
{
    match form {
        EntryForm::Join => {
            let (a, rest) = first_number(bytes)?;
            let (d, rest) = first_number(rest)?;
            let (row, rest) = first_row(width, rest)?;
            Some((Kept { a, d, row }, rest))
        }
        EntryForm::Spool => {
            let (row, rest) = first_row(width, bytes)?;
            Some((Kept { a: 0, d: 0, row }, rest))
        }
    }
}

/// The entry that the bytes begin with, where its row has so many values, and the bytes behind it.
pub fn first_entry(form: EntryForm, width: u8, bytes: &[u8]) -> Option<(Kept<'_>, &[u8])>
    ensures value { option_map (λ x. (x.0, x.1.now)) result ≡ entry_and_rest form width bytes.now }
    ensures begins { IfSome result (λ x. BeginsWith form width bytes.now x.0 x.1.now) }
{
    see_entry(form, width, bytes)
}

/// The number of entries that a block's bytes begin with.
#[tactic(auto, unfolding(tuple_core::specs::Decoding::front_and_rest))]
pub fn first_count(bytes: &[u8]) -> Option<u32>
    ensures { result ≡ option_map (λ x. from_be_bytes w32 x.0) (front_and_rest 4 bytes.now) }
{
    let (count, _) = bytes.split_first_chunk::<4>()?;
    Some(u32::from_be_bytes(*count))
}
