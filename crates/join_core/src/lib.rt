//! A join of two sides whose rows come in any order: each match is given as soon as both its rows are there, and once.
//!
//! 1. [`Join::new`] makes a join that knows no rows.
//! 2. [`Join::arrive`] takes the next row of a side. The row gets the next number, is kept in its key's bucket, and is
//!    then the probe: it is compared with the other side's rows of its bucket.
//! 3. [`Join::next_out`] gives the next match of the probe, as one glued row, until it answers that nothing is left.
//!    Only then may the next row come.
//! 4. [`Join::close`] says that a side has ended. [`Join::finished`] tells that all has been given.
//! 5. [`Join::weights`] tells how heavy the buckets of a side are.
//!
//! Contracts see the state as plain data (`specs/State.antt`). Which pairs were given and which are owed are tests on two
//! rows (`specs/Given.antt`); what a call does to them is a step (`specs/Steps.antt`), and [`joins_step`] has the laws of
//! steps. [`joins_are_joined`] says that what a join gives are the joined rows of the theory of answers, and
//! [`Join::stands`] what holds of each join. A state already says from when on a bucket's rows are not in memory, and how far a clean-up of those has come:
//! as long as no bucket is closed, every two rows of a key met in memory.
#![tactic(auto)]

mod join;
mod laws;
mod probe;
mod sides;
#[cfg(test)]
mod tests;

pub use join::{Arrive, Join, OutStep};
pub use laws::{joins_are_joined, joins_step};
