//! What the rules of a plan do. So far: which of them conflict.
//!
//! `conflicts` says whether two rules of `rule_reader` conflict, a rule with itself too. Its definition is `Conflicts`
//! in `specs/Conflicts.antt`.
#![tactic(auto)]

mod conflicting;
#[cfg(test)]
mod tests;

pub use conflicting::conflicts;
