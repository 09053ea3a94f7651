//! Frames of a text that comes in pieces.

ghost use Rattle.std.specs.Prelude.{◌≡◌, ◌+◌, ◌≤◌, ◌^◌, false, true, List, [], ◌++◌, length, drop, Option, is_ok, OnOk, if◌then◌else◌};
ghost use Rattle.med_prelude.specs.Texts.{Bytes};
ghost use Rattle.csv_frame.specs.Holding.{HasGivenFrames, IsGood, KeepsLong, PeeksFrame, StepsFrame, TellsLong, frame_of, span_bytes};

use crate::cuts::Scan;
use crate::find::{Cursor, FrameStep, Peek, Span, find_frame};
use std::alloc::{AllocError, Global};
use std::marker::Model;

/// Holds the bytes of a text from the next frame on, and gives its frames one by one. No byte is looked
/// through twice, and bytes that were passed are given up at a feed.
#[derive(Debug, Drop)]
pub struct Framer {
    buffer: Vec<u8>,
    cursor: Cursor,
    // How many bytes were given up: the offset of the buffer in the text.
    before: u64,
    ended: bool,
}

impl Model for Framer {
    ghost use Rattle.std.specs.Prelude.{◌+◌, ◌≤◌, ◌^◌, length};
    ghost use Rattle.csv_frame.specs.Holding.{Held, IsCursor, held_of};

    ghost Value = { Held };

    ghost view = { λ f. held_of f.buffer.items f.cursor.start f.before f.ended };

    ghost invariant = { λ f. IsCursor f.buffer.items f.cursor × (f.before + length f.buffer.items ≤ 2 ^ 62) };
}

impl Framer {
    /// A framer of the empty text.
    pub fn new(alloc: Global) -> Self
        ensures empty { result ≡ record { bytes = []; rest = []; at = 0; ended = false } }
        ensures gave { HasGivenFrames [] [] result }
    {
        Framer {
            buffer: Vec::new(alloc),
            cursor: Cursor {
                start: 0,
                scan: Scan::FRESH,
            },
            before: 0,
            ended: false,
        }
    }

    /// Takes the next bytes of the text.
    pub fn feed(&mut self, _alloc: Global, piece: &[u8]) -> Result<(), AllocError>
        requires few { self.old.at + length self.old.rest + length piece.now ≤ 2 ^ 62 }
        requires open { self.old.ended ≡ false }
        ensures rest { self.new.rest ≡ (if is_ok result then self.old.rest ++ piece.now else self.old.rest) }
        ensures at { self.new.at ≡ self.old.at }
        ensures ended { self.new.ended ≡ self.old.ended }
        ensures gave { OnOk result ((fed : Bytes) (given : List (Option Bytes)) → HasGivenFrames fed given self.old → HasGivenFrames (fed ++ piece.now) given self.new) }
    {
        self.compact();
        self.buffer.extend_from_slice(piece)?;
        Ok(())
    }

    /// Gives up the bytes that were passed, once they are as many as those that would be moved.
    fn compact(&mut self)
        ensures rest { self.new.rest ≡ self.old.rest }
        ensures at { self.new.at ≡ self.old.at }
        ensures ended { self.new.ended ≡ self.old.ended }
    {
        let passed = self.cursor.start;
        if passed >= self.buffer.len() - passed {
            give_up(&mut self.buffer, passed);
            self.before += passed as u64;
            self.cursor.start = 0;
        }
    }

    /// Tells the text's end.
    pub fn finish(&mut self)
        ensures told { self.new ≡ record self.old { ended = true } }
        ensures gave { (fed : Bytes) (given : List (Option Bytes)) → HasGivenFrames fed given self.old → HasGivenFrames fed given self.new }
    {
        self.ended = true;
    }

    /// Whether the text's end was told.
    pub fn is_finished(&self) -> bool
        ensures { result ≡ self.now.ended }
    {
        self.ended
    }

    /// The next frame, without its byte order marks. It takes no memory.
    pub fn next_frame(&mut self) -> FrameStep
        ensures step { StepsFrame self.old self.new result }
        ensures bytes { self.new.bytes ≡ self.old.bytes }
        ensures at { self.new.at + length self.new.rest ≡ self.old.at + length self.old.rest }
        ensures ended { self.new.ended ≡ self.old.ended }
        ensures gave { (fed : Bytes) (given : List (Option Bytes)) → HasGivenFrames fed given self.old → HasGivenFrames fed (given ++ frame_of self.new result) self.new }
        ensures long { (fed : Bytes) (given : List (Option Bytes)) → HasGivenFrames fed given self.old → TellsLong fed self.old.ended result }
    {
        match self.peek() {
            Peek::Frame { span, count } => {
                self.skip(count);
                return FrameStep::Frame(span);
            }
            Peek::NotWhole => return FrameStep::NotWhole,
            Peek::TooLong { at } => return FrameStep::TooLong { at },
        }
    }

    /// The next frame, which stays, for a reader that may have to come back to it.
    pub fn peek(&mut self) -> Peek
        ensures peek { PeeksFrame self.old self.new result }
        ensures long { KeepsLong self.old self.new }
        ensures bytes { self.new.bytes ≡ self.old.bytes }
        ensures forward { self.old.at ≤ self.new.at }
        ensures at { self.new.at + length self.new.rest ≡ self.old.at + length self.old.rest }
        ensures ended { self.new.ended ≡ self.old.ended }
    {
        find_frame(
            self.buffer.as_slice(),
            &mut self.cursor,
            self.before,
            self.ended,
        )
    }

    /// The bytes of a frame.
    pub fn bytes(&self, span: Span) -> &[u8]
        requires { IsGood self.now span }
        ensures { result.now ≡ span_bytes self.now span }
    {
        &self.buffer[span.from..span.end]
    }

    /// All bytes from the next frame's start on, for a reader that takes several frames at once.
    pub fn rest(&self) -> &[u8]
        ensures { result.now ≡ self.now.rest }
    {
        &self.buffer[self.cursor.start..]
    }

    /// Passes bytes that a reader took; the next frame begins after them.
    pub fn skip(&mut self, count: usize)
        requires { count ≤ length self.old.rest }
        ensures bytes { self.new.bytes ≡ self.old.bytes }
        ensures rest { self.new.rest ≡ drop count self.old.rest }
        ensures at { self.new.at ≡ self.old.at + count }
        ensures ended { self.new.ended ≡ self.old.ended }
    {
        self.cursor = Cursor {
            start: self.cursor.start + count,
            scan: Scan::FRESH,
        };
    }
}

/// Drops bytes at the start.
fn give_up(buffer: &mut Vec<u8>, count: usize)
    requires { count ≤ length buffer.old.items }
    ensures { buffer.new.items ≡ drop count buffer.old.items }
{
    let left = buffer.len() - count;
    buffer.copy_within(count.., 0);
    buffer.truncate(left);
}
