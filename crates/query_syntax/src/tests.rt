//! Texts that are read and refused, with their offsets by hand.

use crate::{NamedTerm, Part, WrittenTerm, read_syntax};
use med_prelude::{ReadFault, Text};
use std::alloc::{AllocError, Global};
use std::process::Abort;
use std::test::Fail;
use tuple_core::{Op, Value};

/// The offset where a text is refused; none where it is read.
fn refusal(rt: &impl Abort, alloc: Global, text: &[u8]) -> Option<u64> {
    match read_syntax(alloc, text) {
        Ok(_) => None,
        Err(ReadFault::Broken(at)) => Some(at),
        Err(ReadFault::NoMemory) => panic!(rt; "out of memory"),
    }
}

/// The first token that continues nothing is told; then what stands behind the full stop, truth values where a
/// name is due, signs and runs that are no tokens, and tokens that are cut.
#[test]
fn refuses_the_first_token_that_continues_nothing(rt: HostRuntime) {
    let cases = [
        ("", 0),
        (" q(x) :- r(x).", 0),
        ("5", 0),
        ("q ", 2),
        ("q()", 2),
        ("q(\"x\") :- r(x).", 2),
        ("q(x,)", 4),
        ("q(x) r(x).", 5),
        ("q(x) :- .", 8),
        ("q(x) :- 5 < x.", 8),
        ("q(x) :- r().", 10),
        ("q(x) :- r(x)  ", 14),
        ("q(x) :- r(x),.", 13),
        ("q(x) :- x = .", 12),
        ("q(x) :- x .", 10),
        ("q(x) :- x == y.", 11),
        ("q(x) :- r((x).", 10),
        ("q(x) : - r(x).", 5),
        ("q(x) :- r(_x).", 10),
        ("q(x) :- r(x). # all", 14),
        ("q(x) :- r(x). q(x) :- r(x).", 14),
        ("q(x) :- r(x).\t\r\n !", 17),
        ("true(x) :- r(x).", 0),
        ("q(x, false) :- r(x).", 5),
        ("q(x) :- r(x), false = x.", 14),
        ("q(x) :- r(- 5).", 10),
        ("q(x) :- r(1-5).", 11),
        ("q(x) :- r(1x).", 11),
        ("q(x) :- x <- y.", 11),
        ("q(x) :- x ! = y.", 10),
        ("q(x) :", 5),
        ("q(x) :- x <", 11),
        ("q(x) :- x < -", 12),
        ("q(x) :- r(\"abc\"\"", 10),
        ("q(x) :- r(9223372036854775808).", 10),
        ("q(x) :- r(-9223372036854775809).", 10),
        ("q(x) :- r(é).", 10),
    ];
    for (text, at) in cases {
        assert_eq!(rt;
            refusal(&rt, rt.alloc(), text.as_bytes()),
            Some(at),
            "{text}"
        );
    }
}

#[test]
fn reads_what_is_a_query(rt: HostRuntime) {
    let cases = [
        "q(x) :- r(true, x), x = false.",
        "q(True, true1, truefalse) :- false_(tru).",
        "q(x) :- r(x), x<-5.",
        "q(x):-r(x),x<=y,y!=\"\",x>=0,x>1,x=y.",
        "q\n(\tx\r)\n:-\nr ( x ) , x <= -5 . \t\r\n",
        "q(x) :- r(9223372036854775807, -9223372036854775808, -0, 00000000000000000000000000).",
        "q(x) :- r(\"é\").",
    ];
    for text in cases {
        assert_eq!(rt; refusal(&rt, rt.alloc(), text.as_bytes()), None, "{text}");
    }
    let broken = b"q(x) :- r(\"\xc3\").";
    assert_eq!(rt; refusal(&rt, rt.alloc(), broken.as_slice()), Some(10));
}

/// Every prefix ends too early, and so is refused at its length. Only where a token is cut it is refused at that
/// token's first byte: at 11, where `:-` begins, and at 25, where the text does, whose closing quote stands at 29.
#[test]
fn prefixes_are_refused_at_their_ends(rt: HostRuntime) {
    let query =
        b"q(n, h, f) :- flights(n, \"SEA\", d, p), hotels(d, h, c), cars(d, f), p < 500, c <= 120.";
    assert_eq!(rt; query.len(), 86);
    for length in 0..query.len() {
        let expected = match length {
            12 => 11,
            26..=29 => 25,
            _ => length as u64,
        };
        assert_eq!(rt;
            refusal(&rt, rt.alloc(), &query[..length]),
            Some(expected),
            "{length}"
        );
    }
    assert_eq!(rt; refusal(&rt, rt.alloc(), query.as_slice()), None);
}

/// A piece so many times between two others.
fn text_of(
    alloc: Global,
    front: &[u8],
    piece: &[u8],
    count: u32,
    back: &[u8],
) -> Result<Vec<u8>, AllocError> {
    let mut text = Vec::from_slice(alloc, front)?;
    for _ in 0..count {
        text.extend_from_slice(piece)?;
    }
    text.extend_from_slice(back)?;
    Ok(text)
}

/// A name has 64 bytes at most, and a text 65,536, whose quotes count once; long texts are answered.
#[test]
fn the_edges_of_names_and_texts(rt: HostRuntime) -> Result<(), Fail> {
    let cases = [
        ("q(", "n", 64, ") :- r(x).", None),
        ("q(", "n", 65, ") :- r(x).", Some(2)),
        ("q(x) :- r(\"", "a", 65_536, "\").", None),
        ("q(x) :- r(\"", "a", 65_537, "\").", Some(10)),
        ("q(x) :- r(\"", "\"\"", 65_536, "\").", None),
        ("q(x) :- r(\"", "\"\"", 65_537, "\").", Some(10)),
        ("q(x) :- r(x).", " ", 1_000_000, "", None),
        ("q(x) :- r(x)", ", r(x)", 100_000, ".", None),
        ("q(x) :- r(", "(", 100_000, "", Some(10)),
        ("q(x) :- r(", "7", 1_000_000, "", Some(10)),
        ("q(x) :- r(\"", "a", 1_000_000, "", Some(10)),
        ("q(x) :- r(", "\"", 1_000_001, "", Some(10)),
    ];
    for (front, piece, count, back, at) in cases {
        let alloc = rt.alloc();
        let (front, piece, back) = (front.as_bytes(), piece.as_bytes(), back.as_bytes());
        let text = text_of(alloc, front, piece, count, back)?;
        assert_eq!(rt; refusal(&rt, alloc, text.as_slice()), at, "{count}");
    }
    Ok(())
}

fn constant(value: Value, at: u64) -> WrittenTerm {
    let written = NamedTerm::Constant(value);
    WrittenTerm { written, at }
}

fn assert_compared(rt: &impl Abort, part: &Part, at: u64, op: Op, right: &WrittenTerm) {
    match part {
        Part::Atom(_) => panic!(rt; "an atom"),
        Part::Comparison(comparison) => {
            assert_eq!(rt;
                (comparison.left.name.as_str(), comparison.left.at),
                ("x", at)
            );
            assert_eq!(rt; comparison.op, op);
            assert_eq!(rt; &comparison.right, right);
        }
    }
}

#[test]
fn parts_have_offsets_and_values(rt: HostRuntime) -> Result<(), Fail> {
    let alloc = rt.alloc();
    let text = b"q(x, y) :- r(y, -07, \"a\"\"b\", true),\n x >= false.";
    let syntax = read_syntax(alloc, text.as_slice())?;
    assert_eq!(rt; (syntax.name.name.as_str(), syntax.name.at), ("q", 0));
    let head = syntax.head.as_slice();
    assert_eq!(rt; head.len(), 2);
    assert_eq!(rt; (head[1].name.as_str(), head[1].at), ("y", 5));
    let parts = syntax.parts.as_slice();
    assert_eq!(rt; parts.len(), 2);
    let variable = NamedTerm::Variable(Text::from_str(alloc, "y")?);
    let terms = vec![in alloc;
        WrittenTerm {
            written: variable,
            at: 13
        },
        constant(Value::Int(-7), 16),
        constant(Value::Text(Text::from_str(alloc, "a\"b")?), 21),
        constant(Value::Bool(true), 29),
    ]?;
    match &parts[0] {
        Part::Atom(atom) => {
            assert_eq!(rt; (atom.relation.name.as_str(), atom.relation.at), ("r", 11));
            assert_eq!(rt; atom.terms.as_slice(), terms.as_slice());
        }
        Part::Comparison(_) => panic!(rt; "a comparison"),
    }
    assert_compared(
        &rt,
        &parts[1],
        37,
        Op::Ge,
        &constant(Value::Bool(false), 42),
    );
    Ok(())
}

#[test]
fn operators_are_read(rt: HostRuntime) -> Result<(), Fail> {
    let alloc = rt.alloc();
    let cases = [
        ("q(x) :- x = 5.", Op::Eq, 12),
        ("q(x) :- x != 5.", Op::Ne, 13),
        ("q(x) :- x < 5.", Op::Lt, 12),
        ("q(x) :- x <= 5.", Op::Le, 13),
        ("q(x) :- x > 5.", Op::Gt, 12),
    ];
    for (text, op, at) in cases {
        let syntax = read_syntax(alloc, text.as_bytes())?;
        let parts = syntax.parts.as_slice();
        assert_eq!(rt; parts.len(), 1);
        assert_compared(&rt, &parts[0], 8, op, &constant(Value::Int(5), at));
    }
    Ok(())
}
