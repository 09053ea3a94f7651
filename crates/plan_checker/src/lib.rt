//! The checker of plans: whether a plan covers a query, and where each comparison is tested.
//!
//! `check_plan` takes a query, its catalogue and a plan, and gives a `Checked`, or a `PlanFault`: the number of the first
//! check that the plan breaks, with the least part and item that break it. A `Checked` has the plan, the place of each
//! comparison, and the groups and members that the query reads. What is found of a plan is `checked_of` in
//! `specs/Checking.antt`. A plan that names no fragment gets one first (`specs/Filling.antt`); `default_plan` names nothing.
//!
//! Definitions:
//! - `specs/Uses.antt`: the checks; `specs/Places.antt`: where comparisons are tested; `specs/Members.antt`: what is read;
//! - `specs/Covers.antt`, `specs/Solving.antt`: what a checked plan covers, and what its fragments' trees give.
//!
//! Laws: `tops_cover_fragments`, fragments cover what they are made of; `default_is_accepted`.
#![tactic(auto)]

mod checking;
mod filling;
mod laws;
mod members;
mod misused;
mod places;
#[cfg(test)]
mod tests;
mod unknown;
mod uses;
mod walking;

pub use checking::{Checked, check_plan};
pub use filling::default_plan;
pub use laws::{default_is_accepted, tops_cover_fragments};
