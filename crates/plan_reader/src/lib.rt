//! The reader of plans: from a text to a plan, or to the one location where the text is refused.
//!
//! `read_plan` gives a `Plan`: its numbers and words, `Fragment`s with their `Tree`s, what it says of joins and groups, and
//! its rules as they are written. A refusal is a `PlanFault`: the number of the first check that the text breaks, with the
//! least part and item that break it. What a text says is `plan_of` in `specs/Reading.antt`: one list of checks, each with
//! everywhere that it is broken (`Location`), and the plan that the text's tables say (`specs/Parts.antt`).
//!
//! The checks that only a query and a catalogue can break are made above, and those of a rule's text. `own_fault` makes
//! those of a plan by itself, whoever made it (`specs/Own.antt`).
//!
//! Definitions:
//! - `specs/Words.antt`, `Entries`, `Fragments`, `Settings`: what words, keys and tables say;
//! - `specs/Forms.antt`, `specs/Limits.antt`: the checks; `specs/Items.antt`: names that stand twice.
//!
//! Law: `least_fault_is_told`, what is told is the first broken check at its least location.
#![tactic(auto)]

mod doubled;
mod entries;
mod forms;
mod fragments;
mod items;
mod limits;
mod location;
mod own;
mod parts;
mod plan;
mod reading;
mod settings;
#[cfg(test)]
mod tests;
mod words;

pub use join_trees::{Leaf, Node, Tree};
pub use location::{Location, located};
pub use own::own_fault;
pub use plan::{Fragment, GroupSetting, JoinSetting, Plan, PlanFault, Policy, Replan, WrittenRule};
pub use reading::{LONGEST_PLAN, least_fault_is_told, read_plan};
pub use rule_reader::Method;
