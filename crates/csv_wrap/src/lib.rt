//! The rows of a source, read from its bytes as they come, and how a member ends.
//!
//! 1. `Wrapper::new` takes a fresh source and the columns of its relation.
//! 2. `next_row` gives the next row of the frames that are held, until there is `Nothing` or a fault.
//! 3. `pull_rows` then pulls the source once: bytes `Moved`, there is `NotYet` anything, or the source `Ended` or
//!    `Failed`. A fault stays, and after want of memory either call may be made again.
//! 4. `into_source` hands the source back; a `MemberEnd` tells of it at the end of a run, and `Members` of all.
//!
//! `read_rows` is the plain reader of a text that is there as a whole.
//!
//! Definitions: `specs/Rows.antt` says what each frame is, the header, a row or a fault, and what the rows and the
//! verdict of a source are; `specs/Sound.antt` when a member's end is sound, and which rows it accepted.
//! `specs/Wrapped.antt` says what a wrapper holds and what its answers tell, `specs/Pulls.antt` what a call that
//! pulls does to the source. `specs/Ahead.antt` and `specs/Readings.antt` have the words for rows read ahead.
#![tactic(auto)]

mod ahead;
mod fields;
mod frame_rows;
mod members;
mod reading;
mod run_rows;
mod wrapper;

pub use med_base::{MemberFault, MemberName, MemberState, Source};
pub use members::{MemberEnd, Members};
pub use reading::{SourceRows, read_rows};
pub use tuple_core::{Columns, Row, Text};
pub use wrapper::{NextRow, Pulled, Wrapper};

#[cfg(test)]
mod tests;
