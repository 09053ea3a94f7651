//! What the readers of texts share, over any language.
//!
//! **Refusals.** A reader has a list of checks, each with everywhere that it is broken (`specs/Checks.antt`, `Check`).
//! What is told is the first broken check, at the least that breaks it (`first_broken`): a `Broken`, which says where by a
//! value of any type with an order (`Ordered`): an offset, an index, or a reader's own. Code finds the least that breaks
//! each check (`least`, `lesser`, `broken_if`, `index_past`), and puts the checks together from the last one on
//! (`told_first`). `first_broken_is_exact` is the law of it. Words for what is broken in lists stand in
//! `specs/Faults.antt`, the order in `specs/Order.antt`.
//!
//! **Tokens.** `name_in`, `name_run`, `digit_run`, `integer_run` and `is_blank` cut words out of bytes (`specs/Runs.antt`),
//! and `quoted_text` reads a text in quotes (`specs/Quoted.antt`; its law is `quoted_is_read_back`).
//!
//! **Grammars**, in definitions alone: the tokens of a text with their offsets (`specs/Lexing.antt`), what it means that a
//! text breaks a grammar at an offset (`specs/Grammars.antt`), and machines over tokens (`specs/Machines.antt`). Each machine
//! that fits its grammar reads just the grammar's values: `proofs/MachineLaws.antt`.
#![tactic(auto)]

mod checks;
mod faults;
mod quotes;
mod runs;
#[cfg(test)]
mod tests;

pub use checks::{Broken, Ordered, first_broken_is_exact, least, lesser, told_first};
pub use faults::{broken_if, index_past};
pub use quotes::{quoted_is_read_back, quoted_text};
pub use runs::{begins_blank, begins_integer, digit_run, integer_run, is_blank, name_in, name_run};
