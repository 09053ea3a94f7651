//! The top call of the mediator: from the words of a command to the text of an answer.
//!
//! [`mediate`] is the one call, which the program makes; its contract is the main theorem, and docs/THEOREM.md goes through it.
//! What it answers is an [`Outcome`]: the status, the members as they stand, and the spill files.
//!
//! In the order in which they are called: `command` takes the words apart; `load` fetches the two texts, `task` reads them, and
//! `target` says what is read for each atom; `atoms`, `groups`, `member` and `taking` read the sources, from all atoms down to
//! the rows of one source; `finish` answers and writes; `telling` tells the user how the call ended.
//!
//! The definitions are in `specs/`: `Outcomes` says what holds at each status, over `Loading`, `Tasks` and `Targets` (what was
//! asked for), `Atoms`, `Members` and `Taking` (what came), `Command`, `Telling` and `Limits`.
#![tactic(auto)]

mod atoms;
mod command;
mod finish;
mod groups;
mod load;
mod mediating;
mod member;
mod outcome;
mod taking;
mod target;
mod task;
mod telling;

pub use csv_wrap::{MemberEnd, Members};
pub use med_base::{Files, Status};
pub use mediating::mediate;
pub use outcome::Outcome;
pub use taking::IDLE_LIMIT;

#[cfg(test)]
mod tests;
