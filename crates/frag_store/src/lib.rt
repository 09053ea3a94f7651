//! A fragment's rows in a spill file: appended once, and scanned from any row on as often as wanted.
//!
//! [`Spool`] is a file of blocks of rows without numbers. [`Spool::append`] puts rows behind the others, as one block;
//! [`Spool::finish`] tells how many there are; [`Spool::scan`] reads them, from a position over all of them on. A spool that
//! is scanned in order is read once.
//!
//! What a spool holds and what a scan gives is in `specs/Spools.antt`.
#![tactic(auto)]

mod spool;
#[cfg(test)]
mod tests;

pub use spool::Spool;
