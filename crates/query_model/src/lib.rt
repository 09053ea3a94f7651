//! The plain program that answers a query: by nested choice, and slowly.
//!
//! [`slow_heads`] takes a row of each atom in turn, in each way, and keeps the heads of those that agree; [`slow_answer`]
//! puts them into order, each once. Its contract is the definition of the answer, `answer_of` of `query_core`, so faster
//! programs can be held against it.
//!
//! `entries.rt` binds what a row says, `heads.rt` tests and keeps a head, `slow.rt` walks. What is left of a walk once
//! some rows are chosen is said in `specs/Walks.antt`.
#![tactic(auto)]

mod entries;
mod heads;
mod slow;
#[cfg(test)]
mod tests;

pub use slow::{slow_answer, slow_heads};
