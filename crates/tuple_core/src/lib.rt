//! Values and rows: what they are, how they compare, and how they are read, written and put into bytes.
//!
//! - [`Value`] is an integer, a text or a truth value, [`Row`] a short list of values, [`Column`] a name and a
//!   [`Kind`]. Each of them has `clone`, whose copy is equal.
//! - [`parse_value`] reads a value from its text, and [`field_value`] from a field of a column; [`numeral`] reads a
//!   number without a sign; [`text_of`] writes a value's text.
//! - [`compare`] tells whether an [`Op`] holds between two values, and [`same_value`] whether they are equal.
//!   [`row_order`] is the order of rows.
//! - [`encode`] puts a row into bytes, whose number is its [`weight`], and [`decode`] reads it back.
//! - [`ValueRef`] is a value where it lies, and [`EncodedRow`] a row in its encoding, which gives its values
//!   ([`EncodedValues`]), compares, and has a rank to be sorted by, all without taking memory.
//! - [`KeyRoom`] is lent room in which the key of a row is written; [`hash`] and [`bucket_of`] tell where a key is kept.
//! - The functions of `laws.rt`, as [`encodings_tell_rows_apart`], do nothing: their contracts are laws for callers' proofs.
//!
//! The definitions are in `specs/`: `Values` (limits, order and texts, with the short names `RowValues` and `RowList`),
//! `Order` (laws of the order), `Parsing`, `Comparing`, `Distinct`, `Encoding`, `Decoding`, `Encoded`, `Hashing`, `RowText`
//! (the text of rows) and `Ranks` (what rows are sorted by first).
#![tactic(auto)]

mod columns;
mod comparing;
mod decoding;
mod encoded;
mod encoding;
mod hashing;
mod keys;
mod laws;
mod parsing;
mod ranking;
mod row;
#[cfg(test)]
mod tests;
mod value;
mod writing;

pub use columns::{Column, Columns, Kind};
pub use comparing::{Op, compare, row_order, same_value};
pub use decoding::{DecodeFault, decode};
pub use encoded::{EncodedRow, EncodedValues, ValueRef};
pub use encoding::{encode, weight};
pub use hashing::{bucket_of, hash};
pub use keys::KeyRoom;
pub use laws::{
    constants_are_the_limits, encodings_are_read_back, encodings_tell_rows_apart,
    rows_are_read_from_encodings, weight_is_a_length, weight_is_bounded,
};
pub use med_prelude::{Listed, Text};
pub use parsing::{field_value, numeral, parse_value};
pub use row::Row;
pub use value::Value;
pub use writing::text_of;

/// A list of texts, such as the words of a command line.
pub type Words = Listed<Text>;
