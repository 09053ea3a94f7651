//! The frames of a source: its lines, where a line feed inside quotes ends none.
//!
//! A frame ends at a line feed with an even number of quotes before it in the text. Byte order marks at its start
//! are dropped, one that is then empty or only CR is skipped, and one of more than 4,194,304 bytes is too long.
//! A text may come in pieces of any size: the frames are those of the whole text, however it was cut.
//!
//! `Framer` holds the text from the next frame on:
//!
//! 1. `Framer::new` makes one of the empty text; `feed` takes the next bytes, and `finish` tells the text's end.
//! 2. `next_frame` gives the next frame as a `Span`, whose bytes `bytes` lends until the next feed.
//! 3. `peek` tells the next frame and lets it stay, and `rest` lends all that is held, for a reader that takes
//!    frames on its own; `skip` passes what it took.
//!
//! `first_frame` is the same for a text that is there as a whole.
//!
//! Definitions: `specs/Frames.antt` says what the frames of a text are, and where one that is too long begins,
//! `specs/Holding.antt` what a framer holds and gives, `specs/Whole.antt` what a whole text starts with.
//! `specs/Scanning.antt` has the words of the one pass that finds frames, and `proofs/PieceLaws.antt` shows that
//! it finds those of the definition.
#![tactic(auto)]

mod cuts;
mod find;
mod framer;
mod marks;
mod whole;

pub use cuts::LONGEST_FRAME;
pub use find::{FrameStep, Peek, Span};
pub use framer::Framer;
pub use whole::{FirstFrame, first_frame};

#[cfg(test)]
mod tests;
