//! The frames of a text that is there as a whole.

ghost use Rattle.csv_frame.specs.Whole.{StartsWith};

use crate::cuts::Scan;
use crate::find::{Cursor, Peek, find_frame};

/// What stands at the start of a text.
#[derive(Clone, Copy, Debug)]
pub enum FirstFrame<'a> {
    Frame { frame: &'a [u8], rest: &'a [u8] },
    TooLong,
    Nothing,
}

/// The first frame of a text, and the text after it.
pub fn first_frame(text: &[u8], ended: bool) -> FirstFrame<'_>
    ensures { StartsWith text.now ended result }
{
    let mut cursor = Cursor {
        start: 0,
        scan: Scan::FRESH,
    };
    match find_frame(text, &mut cursor, 0, ended) {
        Peek::Frame { span, count } => FirstFrame::Frame {
            frame: &text[span.from..span.end],
            rest: &text[cursor.start + count..],
        },
        Peek::TooLong { .. } => FirstFrame::TooLong,
        Peek::NotWhole => FirstFrame::Nothing,
    }
}
