//! The members of one atom, read step by step, and what the atom selects of their rows. It knows no edge: a step
//! returns what it gives.
//!
//! 1. [`Selection::new`] is made of the atom's pattern and of the comparisons that are placed at the atom.
//! 2. [`AtomCollector::new`] lists the atom's members by group and mirror; `find` gives a member's index.
//! 3. [`AtomCollector::give`] gives a fresh source to a member; `opening_failed` says that there is none.
//! 4. [`AtomCollector::accept`] accepts the next row that is held of a member, and [`AtomCollector::step`] does so or, where
//!    nothing is held, pulls its source once; what came of it is [`Collected`].
//! 5. `member`, `settled`, `finished` and `starved` tell how members and groups stand; `into_ends` gives the members' ends.
//!
//! Definitions: `specs/Selecting.antt` says which rows an atom selects; `specs/Reading.antt`, `Members` and `Collecting` what
//! a reader, a member and a collector are, and which rows were accepted; `specs/Steps.antt` what a step is, and over
//! accepted rows alone the relation `CollectorStep`; `specs/Giving.antt` how a member gets its source. `specs/Turning.antt`
//! has the parts of a step. [`collectors_step`] and [`collectors_are_leaves`] are the laws, and [`AtomCollector::stands`]
//! what holds of each collector, for callers' proofs.
#![tactic(auto)]

mod collector;
mod laws;
mod member;
mod reader;
mod selection;

pub use collector::AtomCollector;
pub use laws::{collectors_are_leaves, collectors_step};
pub use member::{Member, MemberNow};
pub use reader::{Collected, Reader};
pub use selection::Selection;

#[cfg(test)]
mod tests;
