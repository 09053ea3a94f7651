//! Frames of texts that come in pieces.

ghost use Rattle.std.specs.Prelude.{◌≡◌, ◌+◌, ◌<◌, ◌^◌, length};

use crate::{FirstFrame, FrameStep, Framer, LONGEST_FRAME, Peek, first_frame};
use std::alloc::{AllocError, Global};
use std::test::Fail;

/// Marks, CRLF, empty lines, doubled quotes, line feeds inside quotes, and no line feed at the end.
const TEXT: &[u8] =
    b"\xEF\xBB\xBFx,y\r\n\n\r\n\"a \"\"b\"\"\nc\",1\r\n\xEF\xBB\xBF\xEF\xBB\xBF\r\n\xEF\xBB\xBF\xEF\xBB\xBFz,\"\"\n\"q\"\"\",\"\n\"\"\n\"\n\xEF\xBBlast";

const FRAMES: [&[u8]; 5] = [
    b"x,y\r",
    b"\"a \"\"b\"\"\nc\",1\r",
    b"z,\"\"",
    b"\"q\"\"\",\"\n\"\"\n\"",
    b"\xEF\xBBlast",
];

/// Takes all frames that are held, and counts those that are the next of the list.
fn count_expected(framer: &mut Framer, from: usize) -> Option<usize>
    ensures bytes { framer.new.at + length framer.new.rest ≡ framer.old.at + length framer.old.rest }
    ensures ended { framer.new.ended ≡ framer.old.ended }
{
    let mut count = from;
    'frames: for _ in 0..=FRAMES.len() {
        match framer.next_frame() {
            FrameStep::Frame(span) => {
                if FRAMES.get(count)? != &framer.bytes(span) {
                    return None;
                }
                count += 1;
            }
            FrameStep::NotWhole => return Some(count),
            FrameStep::TooLong { .. } => return None,
        }
    }
    None
}

fn count_of_cut(alloc: Global, cut: usize) -> Result<Option<usize>, AllocError> {
    let (first, second) = TEXT.split_at(cut.min(TEXT.len()));
    let mut framer = Framer::new(alloc);
    framer.feed(alloc, first)?;
    let Some(count) = count_expected(&mut framer, 0) else {
        return Ok(None);
    };
    framer.feed(alloc, second)?;
    framer.finish();
    Ok(count_expected(&mut framer, count))
}

#[test]
fn every_cut_into_two_gives_the_same_frames(rt: HostRuntime) -> Result<(), Fail> {
    for cut in 0..=TEXT.len() {
        assert_eq!(rt; count_of_cut(rt.alloc(), cut)?, Some(5), "{cut}");
    }
    Ok(())
}

#[test]
fn frames_are_peeked_passed_and_waited_for(rt: HostRuntime) -> Result<(), Fail> {
    let alloc = rt.alloc();
    let mut framer = Framer::new(alloc);
    assert_eq!(rt; framer.next_frame(), FrameStep::NotWhole);
    framer.feed(alloc, b"\n\xEF\xBB\xBFa\nb\nc\nd")?;
    match framer.peek() {
        Peek::Frame { span, count } => {
            assert_eq!(rt; framer.bytes(span), b"a".as_slice());
            assert_eq!(rt; count, 5);
        }
        _ => assert!(rt; false, "no frame is peeked"),
    }
    match framer.next_frame() {
        FrameStep::Frame(span) => assert_eq!(rt; framer.bytes(span), b"a".as_slice()),
        _ => assert!(rt; false, "the peeked frame is gone"),
    }
    let count = framer.rest().len().min(2);
    framer.skip(count);
    assert_eq!(rt; framer.rest(), b"c\nd".as_slice());
    assert!(rt; matches!(framer.next_frame(), FrameStep::Frame(_)));
    assert_eq!(rt;
        framer.next_frame(),
        FrameStep::NotWhole,
        "the last frame waits"
    );
    framer.finish();
    assert!(rt; matches!(framer.next_frame(), FrameStep::Frame(_)));
    assert_eq!(rt; framer.next_frame(), FrameStep::NotWhole);
    Ok(())
}

/// The second frame of a text, of three bytes, these and those at the end, and what comes where more is fed.
fn second_frame(
    alloc: Global,
    bytes: &[u8],
    end: &[u8],
) -> Result<(FrameStep, FrameStep), AllocError>
    requires { length bytes.now + length end.now < 2 ^ 32 }
{
    let mut framer = Framer::new(alloc);
    framer.feed(alloc, b"x\n\r\n\xEF\xBB\xBF")?;
    framer.feed(alloc, bytes)?;
    let _first = framer.next_frame();
    framer.feed(alloc, end)?;
    let second = framer.next_frame();
    framer.feed(alloc, b"\nb\n")?;
    Ok((second, framer.next_frame()))
}

#[test]
fn frames_of_the_greatest_length_and_longer(rt: HostRuntime) -> Result<(), Fail> {
    let alloc = rt.alloc();
    let bytes = vec![in alloc; b'a'; LONGEST_FRAME - 3]?;
    match second_frame(alloc, bytes.as_slice(), b"\n")? {
        (FrameStep::Frame(span), FrameStep::Frame(_)) => {
            assert_eq!(rt; span.end.checked_sub(span.from), Some(4_194_301));
        }
        _ => assert!(rt; false, "no frames"),
    }
    let long = FrameStep::TooLong { at: 4 };
    assert_eq!(rt;
        second_frame(alloc, bytes.as_slice(), b"a")?,
        (long, long),
        "it stays"
    );
    Ok(())
}

#[test]
fn first_frame_of_a_whole_text(rt: HostRuntime) -> Result<(), Fail> {
    match first_frame(b"\n\"a\nb\"\nc", false) {
        FirstFrame::Frame { frame, rest } => {
            assert_eq!(rt; frame, b"\"a\nb\"".as_slice());
            assert!(rt; matches!(first_frame(rest, false), FirstFrame::Nothing));
            assert!(rt; matches!(first_frame(rest, true), FirstFrame::Frame { .. }));
        }
        _ => assert!(rt; false, "no frame"),
    }
    Ok(())
}
