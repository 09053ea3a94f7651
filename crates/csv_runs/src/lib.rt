//! The records of frames: of each frame alone, and of a run of frames, which one reader of CSV reads as each of
//! them alone would be read.
//!
//! 1. `record_of` reads the one record of a frame's bytes alone; there is none where they are no record, more than
//!    one, or leave quotes open.
//! 2. `run_length` tells how many leading bytes are a run: whole lines with no byte at which a reader that goes on
//!    would read otherwise than one that begins anew.
//! 3. `RunReader::new` takes a run, and `next` gives the record of each of its frames, one after the other.
//!
//! Definitions: `specs/Records.antt` says what the record of a frame is, `specs/Runs.antt` what a run is, by the
//! modes of a reader over its bytes, and `specs/RunReading.antt` what a run's reader has still to read.
#![tactic(auto)]

mod records;
mod run_reader;
mod runs;

pub use records::record_of;
pub use run_reader::RunReader;
pub use runs::run_length;

#[cfg(test)]
mod tests;
