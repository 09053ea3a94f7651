//! The outside of the mediator over the real machine: thin adapters over files, streams and the system's clock.
//!
//! Each meets its trait of `med_base`, in the order in which a run calls them: `FileShelf` a `Shelf`, `FileOpener`
//! an `Opener` of `FileSource`s, `FileSpills` a `SpillSet` of `FileSpill`s in the folder of `spill_folder`,
//! `RealClock` a `Clock`, `StdSink` a `Sink`.
//!
//! They tell counts, what they were asked for and lengths, and no bytes. What they do to the bytes of a reader or
//! a writer in memory, whose bytes are known, their calls say in `specs/Known.antt`; `specs/Times.antt` has the
//! clock's milliseconds.
//!
//! An opening, a read or a write that a signal interrupts is tried again, in each of them.
#![tactic(auto)]

mod again;
mod clock;
mod folder;
mod opener;
mod shelf;
mod sink;
mod spill;

pub use clock::RealClock;
pub use folder::spill_folder;
pub use opener::{FileOpener, FileSource};
pub use shelf::FileShelf;
pub use sink::StdSink;
pub use spill::{FileSpill, FileSpills};

#[cfg(test)]
mod tests;
