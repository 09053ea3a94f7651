//! What readers of TOML texts look up in a table of the kit's `toml`: a value, a string or an array at a key, and whether
//! a table has only known keys.
//!
//! A reader calls `has_only` for a table's keys, then `text_at`, `array_at` and `value_at` for each of them, and
//! `values_of` for an array within an array. Each says what it gives of the table's data (`table_view` of the kit's
//! `toml`), in the words of `specs/Tables.antt`. Nothing here takes memory.
#![tactic(auto)]

mod tables;
#[cfg(test)]
mod tests;

pub use tables::{array_at, has_only, text_at, value_at, values_of};
