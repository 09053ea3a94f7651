//! The outside of the mediator, as traits with their meanings, and the names that every layer uses.
//!
//! A run asks a `Shelf` for its texts (`fetch`), an `Opener` for sources (`open_at`), and pulls each `Source`
//! (`pull`); rows that memory has no room for go to files of a `SpillSet` (`make`; `Spill::append`,
//! `Spill::read_at`); it looks at a `Clock` (`now`, `rest`), its workers pass a `Gate` (`pass`), and what it
//! answers goes to a `Sink` (`write`). It ends with a `Status`, whose `code` the program exits with.
//!
//! The module `memory` has each of them in memory: `Mem..` and `ScriptClock` follow a script, `Calm..` never fails
//! and never lets anyone wait, `NoGate` holds nobody back. Those over the real machine are in `real_outside`. All are
//! written with the words of `bookkeeping`.
//!
//! What an answer says of the outside is in `specs/Outside.antt`, of spill files in `specs/Spills.antt`, of a clock in
//! `specs/Clocks.antt`; which texts the objects in memory have, in `specs/Stored.antt` and `specs/Sites.antt`; the
//! exit codes in `specs/Statuses.antt`.
#![tactic(auto)]

pub mod bookkeeping;
mod member;
mod memory;
mod names;
mod outside;
mod status;

pub use member::{MemberFault, MemberState};
pub use memory::{
    CalmOpener, CalmSource, CalmSpill, CalmSpills, MemOpener, MemShelf, MemSink, MemSource,
    MemSpill, MemSpills, NoGate, Script, ScriptClock, Site, SpillScript, Stored, Turn,
};
pub use names::{GroupName, MemberName, Name};
pub use outside::{
    Clock, FETCHED_MOST, FetchFault, Files, Gate, OpenFault, Opener, OutsideFault, Pull, Shelf,
    Sink, SinkFault, Source, Spill, SpillFault, SpillSet,
};
pub use status::{Part, ShelfFile, Status};

#[cfg(test)]
mod tests;
