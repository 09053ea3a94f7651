//! Rows in spill files, as blocks: what was put is what is read.
//!
//! - [`BlockFile`] is a spill file of blocks. [`BlockFile::put_rows`] puts entries into it as one block, by one append, and
//!   tells the block's [`BlockId`]; [`BlockFile::rows_of`] reads entries of a block, from any on, and goes on where it
//!   stopped last. [`BlockFile::put_spooled`] puts rows without numbers, and [`BlockFile::add_rows_of`] reads behind entries
//!   that are there.
//! - [`Entries`] is a list of rows with two numbers each ([`Kept`]), as a join keeps them; in a file of the form
//!   [`EntryForm::Spool`] the numbers are 0, and aren't written.
//!   The rows of a block have one number of values ([`Entries::have_one_width`], [`have_one_width`]).
//! - [`BlockFault`] says why a call gave nothing.
//!
//! The definitions are in `specs/`: `Blocks` (the bytes of a block, what a file of blocks holds, and what its calls answer),
//! `Reading` (the entries that bytes begin with), `Entries`, `Listings`, `Windows` and `Tables` (what the types say by their
//! fields), and `Places` (how reading goes on).
#![tactic(auto)]

mod block_file;
mod encoding;
mod entries;
mod fault;
mod form;
mod listing;
mod reading;
mod seeking;
mod table;
#[cfg(test)]
mod tests;
mod window;

pub use block_file::{BlockFile, BlockId};
pub use entries::{Entries, Kept, have_one_width};
pub use fault::BlockFault;
pub use form::EntryForm;
