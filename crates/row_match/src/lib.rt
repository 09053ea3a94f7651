//! How a row is matched with an atom, tested, and joined with another row.
//!
//! 1. [`Pattern`] is an atom's list of [`Term`]s, made once for the atom. `match_row` gives a row's values of the
//!    pattern's variables, or nothing where a constant or a repeated variable disagrees.
//! 2. [`Filter`] is [`Comparison`]s over rows of some [`Vars`]; `holds` tests a row. [`all_hold`] does the same for
//!    whatever gives variables their values, a [`Valuation`].
//! 3. [`JoinShape`] is made once for the variables of two sides. `key_of` writes a row's key, which is one for rows
//!    that meet, and `glue` makes one row of two.
//!
//! The words are those of the theory of answers: a row over its variables is a binding, whose entries agree or don't.
//! The definitions: `specs/Patterns.antt`, `Filters`, `Shapes`; `Prepared` is what a pattern keeps for its own use.
//!
//! The laws, for callers' proofs: [`patterns_bind`] and [`matched_rows_bind`], what a row binds; [`atoms_are_leaves`],
//! what an atom gives to joins; [`filters_read`], which variables a filter reads; [`keys_tell`], what keys say.
#![tactic(auto)]

mod filter;
mod laws;
mod matching;
mod pattern;
mod shape;
#[cfg(test)]
mod tests;
mod valuation;
mod vars;

pub use filter::{Comparison, Filter, all_hold};
pub use laws::{atoms_are_leaves, filters_read, keys_tell, matched_rows_bind, patterns_bind};
pub use pattern::{Pattern, Term};
pub use shape::{JoinShape, Side};
pub use valuation::Valuation;
pub use vars::Vars;
