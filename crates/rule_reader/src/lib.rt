//! Rules: from a text to a rule, or to the one offset where the text goes wrong, and why.
//!
//! `read_rule` reads a whole text as a `Rule`: the `Event` that it waits for, the `Condition` under which it fires, and
//! the `Action`s that it then does. What an event or an action names is a part of a plan (`Name` of `med_base`). A
//! refusal is a `RuleFault`: why 1, the text is no rule, or 2, it is over a limit, and the offset where that shows
//! first.
//!
//! `grammar_is_exact` has no code. Its clauses are the law that what is read is spelled so, and that a refusal is at
//! the first token with which no rule can go on.
//!
//! `part_in`, `whole`, `dotted` and `number_told` read names and numbers, for other readers of a plan's texts.
//!
//! Definitions:
//! - `specs/Grammar.antt`: how a rule is spelled, its limits, and where tokens break the grammar;
//! - `specs/Naming.antt`, `specs/Keywords.antt`, `specs/Tokens.antt`: the names, the words and the tokens of a text;
//! - `specs/Machine.antt`: the grammar as a machine that takes one token after the other;
//! - `specs/Reading.antt`: `rule_of`, what is read of a text; `specs/Laws.antt`: what the law says of a refusal.
#![tactic(auto)]

mod calls;
mod keyword;
mod laws;
mod machine;
mod naming;
mod nesting;
mod reading;
mod rule;
mod state;
#[cfg(test)]
mod tests;
mod token;

pub use laws::grammar_is_exact;
pub use naming::{dotted, part_in, whole};
pub use reading::{LONGEST_RULE, RuleFault, read_rule};
pub use rule::{Action, Amount, Condition, Event, Method, NumberOp, Rule};
pub use token::{begins_space, ends_space, is_space, number_told};
