//! The next frame that isn't skipped.

ghost use Rattle.std.specs.Prelude.{◌≡◌, ◌+◌, ◌<◌, ◌≤◌, ◌^◌, length};
ghost use Rattle.csv_frame.specs.Holding.{IsCursor, KeepsLong, PeeksFrame, held_of};

use crate::cuts::{Cut, Scan, next_cut};
use crate::marks::{is_blank, marks_end};

/// Where a frame's bytes lie among those that a framer holds. It is good until the next feed.
#[derive(Clone, Copy, Debug, PartialEq, Eq)]
pub struct Span {
    pub(crate) from: usize,
    pub(crate) end: usize,
}

/// What a framer has next.
#[derive(Clone, Copy, Debug, PartialEq, Eq)]
pub enum FrameStep {
    Frame(Span),
    /// No whole frame is held.
    NotWhole,
    /// The frame that begins at this offset of the text has too many bytes; this answer stays.
    TooLong { at: u64 },
}

/// What a framer has next, where nothing but skipped frames is passed.
#[derive(Clone, Copy, Debug, PartialEq, Eq)]
pub enum Peek {
    /// A frame, which is passed by skipping so many bytes.
    Frame { span: Span, count: usize },
    NotWhole,
    TooLong { at: u64 },
}

/// Where the next frame begins among the bytes, and how far it was looked through.
#[derive(Clone, Copy, Debug)]
pub struct Cursor {
    pub start: usize,
    pub scan: Scan,
}

/// Finds the next frame, and moves the cursor past all that is skipped before it. `before` is the offset of
/// these bytes in the text.
pub fn find_frame(bytes: &[u8], cursor: &mut Cursor, before: u64, ended: bool) -> Peek
    requires cursor { IsCursor bytes.now cursor.old }
    requires few { before + length bytes.now < 2 ^ 64 }
    ensures cursor { IsCursor bytes.now cursor.new }
    ensures forward { cursor.old.start ≤ cursor.new.start }
    ensures peek { PeeksFrame (held_of bytes.now cursor.old.start before ended) (held_of bytes.now cursor.new.start before ended) result }
    ensures long { KeepsLong (held_of bytes.now cursor.old.start before ended) (held_of bytes.now cursor.new.start before ended) }
{
    'cuts: loop {
        let start = cursor.start;
        let rest = &bytes[start..];
        let (end, next) = match next_cut(rest, &mut cursor.scan, ended) {
            Cut::Whole { end, next } => (end, next),
            Cut::TooLong => {
                return Peek::TooLong {
                    at: before + start as u64,
                };
            }
            Cut::Nothing => return Peek::NotWhole,
        };
        let frame = &rest[..end];
        let marks = marks_end(frame);
        if !is_blank(&frame[marks..]) {
            return Peek::Frame {
                span: Span {
                    from: start + marks,
                    end: start + end,
                },
                count: next,
            };
        }
        *cursor = Cursor {
            start: start + next,
            scan: Scan::FRESH,
        };
    }
}
