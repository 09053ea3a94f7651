//! Rows that stay for long: one behind the other in pages, each as its encoding.
//!
//! - [`Rows`] is a list of rows. [`Rows::push`] puts a row's encoding at the end, [`Rows::get`] and
//!   [`Rows::iter`] lend rows where they lie.
//! - [`sorted_distinct`] puts rows into their order, each once, without moving one.
//! - [`Pieces`] is the list of byte strings under it, for what keeps more than rows; [`Pieces::take`] hands all of them on
//!   without taking memory. [`Pages`] with its [`Spot`]s is what lies under both: bytes that never move.
//!
//! Letting rows go frees pages and no row by itself.
//!
//! How bytes lie in pages is said in `specs/Lying.antt`. What an encoding is, and the row that it stands for, is in
//! `Encoding` and `Encoded` of `tuple_core`.
#![tactic(auto)]

mod pages;
mod pieces;
mod rows;
mod sorting;
#[cfg(test)]
mod tests;

pub use pages::{Pages, Spot};
pub use pieces::Pieces;
pub use rows::{Rows, RowsLeft};
pub use sorting::sorted_distinct;
