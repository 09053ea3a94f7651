//! The texts that a call gives out, and how they are written to a sink, as many bytes at a time as the sink takes.
//!
//! - [`write_rows`] writes the text of an answer's rows, a line of CSV for each.
//! - [`write_fault`] writes what a user is told of a status, which is [`fault_text`].
//!
//! Their contracts say what was written at each answer. What the text of rows is stands in `specs/RowText.antt` of
//! `tuple_core` (`rows_text`), and the text of a status in `specs/FaultText.antt` here. What was written of a text, and what
//! is left, is in `specs/Writing.antt`.
#![tactic(auto)]

mod faults;
mod output;
mod row_text;
mod writing;

pub use faults::{fault_text, write_fault};
pub use writing::write_rows;

#[cfg(test)]
mod tests;
