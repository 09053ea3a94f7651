//! Rows, fault and number of the rows of sources whose bytes come in pieces.

ghost use Rattle.std.specs.Prelude.{◌≤◌, length, IfOk};

use crate::{NextRow, Pulled, SourceRows, Wrapper, read_rows};
use med_base::{MemOpener, MemberFault, Opener, Script, Site, Source, Turn};
use std::alloc::{AllocError, Global};
use std::test::Fail;
use tuple_core::{Column, Columns, Kind, Row, Text, Value};

/// More calls than any of these sources takes.
const CALLS: usize = 10_000;

#[derive(Drop)]
struct Seen {
    rows: Vec<Row>,
    fault: Option<MemberFault>,
    again: bool,
}

/// Takes all rows of the source at `s`, and asks once more after a fault.
fn read_all<O: Opener>(
    alloc: Global,
    opener: &mut O,
    columns: &Columns,
) -> Result<Option<Seen>, AllocError>
    requires { length columns.now ≤ 64 }
{
    let Ok(source) = opener.open_at(alloc, "s") else {
        return Ok(None);
    };
    let mut wrapper = Wrapper::new(alloc, source, columns)?;
    let mut rows = Vec::new(alloc);
    for _ in 0..CALLS {
        match wrapper.next_row(alloc) {
            NextRow::Row(row) => rows.push(row)?,
            NextRow::Failed(fault) => {
                return Ok(Some(failed(alloc, wrapper, rows, fault)));
            }
            NextRow::NoMemory => return Err(AllocError),
            NextRow::Nothing => match wrapper.pull_rows(alloc) {
                Pulled::Moved | Pulled::NotYet => {}
                Pulled::Ended => {
                    return Ok(Some(Seen {
                        rows,
                        fault: None,
                        again: true,
                    }));
                }
                Pulled::Failed(fault) => {
                    return Ok(Some(failed(alloc, wrapper, rows, fault)));
                }
                Pulled::NoMemory => return Err(AllocError),
            },
        }
    }
    Ok(None)
}

fn failed<S: Source>(
    alloc: Global,
    wrapper: Wrapper<S>,
    rows: Vec<Row>,
    fault: MemberFault,
) -> Seen {
    let mut wrapper = wrapper;
    let again = match wrapper.next_row(alloc) {
        NextRow::Failed(other) => other == fault,
        _ => false,
    };
    let _source = wrapper.into_source();
    Seen {
        rows,
        fault: Some(fault),
        again,
    }
}

/// A source of the text that gives `size` bytes a pull, with a `NotYet` before each.
fn slow(alloc: Global, text: &[u8], size: usize) -> Result<MemOpener, AllocError> {
    let mut turns = Vec::new(alloc);
    for _ in 0..=text.len() {
        turns.push(Turn::NotYet)?;
        turns.push(Turn::Give(size))?;
    }
    opener(
        alloc,
        text,
        Script {
            turns,
            then: Turn::NotYet,
        },
    )
}

fn opener(alloc: Global, text: &[u8], script: Script) -> Result<MemOpener, AllocError> {
    let site = Site {
        location: Text::from_str(alloc, "s")?,
        text: Vec::from_slice(alloc, text)?,
        script,
    };
    Ok(MemOpener::new(alloc, vec![in alloc; site]?, Vec::new(alloc)))
}

fn one(alloc: Global, kind: Kind) -> Result<Columns, AllocError>
    ensures { IfOk result (λ columns. length columns ≤ 64) }
{
    let column = Column {
        name: Text::from_str(alloc, "x")?,
        kind,
    };
    Ok(Columns::from_vec(vec![in alloc; column]?))
}

fn is_text(row: &Row, text: &[u8]) -> bool {
    match row.values() {
        [Value::Text(value)] => value.as_bytes() == text,
        _ => false,
    }
}

/// Whether the texts of the rows are these, whatever pieces the text comes in.
fn gives_texts(
    alloc: Global,
    text: &[u8],
    rows: &[&[u8]],
    fault: Option<MemberFault>,
) -> Result<bool, AllocError> {
    let columns = one(alloc, Kind::Text)?;
    for size in [1, 2, 3, 7] {
        let mut opener = slow(alloc, text, size)?;
        let Some(seen) = read_all(alloc, &mut opener, &columns)? else {
            return Ok(false);
        };
        if seen.fault != fault || !seen.again || seen.rows.len() != rows.len() {
            return Ok(false);
        }
        for (row, text) in seen.rows.iter().zip(rows) {
            if !is_text(row, text) {
                return Ok(false);
            }
        }
    }
    Ok(true)
}

/// Whether the numbers of the rows are these, whatever pieces the text comes in.
fn gives_numbers(
    alloc: Global,
    text: &[u8],
    rows: &[i64],
    fault: Option<MemberFault>,
) -> Result<bool, AllocError> {
    let columns = one(alloc, Kind::Int)?;
    for size in [1, 2, 3, 7] {
        let mut opener = slow(alloc, text, size)?;
        let Some(seen) = read_all(alloc, &mut opener, &columns)? else {
            return Ok(false);
        };
        if seen.fault != fault || !seen.again || seen.rows.len() != rows.len() {
            return Ok(false);
        }
        for (row, number) in seen.rows.iter().zip(rows) {
            match row.values() {
                [Value::Int(value)] if value == number => {}
                _ => return Ok(false),
            }
        }
    }
    Ok(true)
}

#[test]
fn rows_and_faults_of_texts_in_pieces(rt: HostRuntime) -> Result<(), Fail> {
    let alloc = rt.alloc();
    let texts: [(&[u8], &[&[u8]], Option<MemberFault>); 8] = [
        (b"x\nparis\noslo", &[b"paris", b"oslo"], None),
        (
            b"\n\xEF\xBB\xBFx\r\n\r\nparis\n\noslo\r\n",
            &[b"paris", b"oslo"],
            None,
        ),
        (b"x\r\n\"a \"\"b\"\"\nc\"\r\n", &[b"a \"b\"\nc"], None),
        (
            b"x\na\n\xEF\xBB\xBF\xEF\xBB\xBFb\nc\n\xEF\xBB\xBF\n\"d\"\n",
            &[b"a", b"b", b"c", b"d"],
            None,
        ),
        (b"x\n\"pari", &[], Some(MemberFault::BadRecord { k: 1 })),
        (b"", &[], Some(MemberFault::Header { found: 0 })),
        (b"y\nparis\n", &[], Some(MemberFault::Header { found: 0 })),
        (b"x,y\nparis\n", &[], Some(MemberFault::Header { found: 1 })),
    ];
    for (index, text) in texts.iter().enumerate() {
        assert!(rt; gives_texts(alloc, text.0, text.1, text.2)?, "at {index}");
    }
    Ok(())
}

#[test]
fn greatest_and_least_integers(rt: HostRuntime) -> Result<(), Fail> {
    let alloc = rt.alloc();
    let fault = Some(MemberFault::BadField { k: 2, column: 0 });
    let past = b"x\n-9223372036854775808\n9223372036854775808\n5\n";
    assert!(rt; gives_numbers(alloc, past, &[i64::MIN], fault)?);
    let before = b"x\n9223372036854775807\n-9223372036854775809\n";
    assert!(rt; gives_numbers(alloc, before, &[i64::MAX], fault)?);
    Ok(())
}

#[test]
fn texts_of_the_greatest_length(rt: HostRuntime) -> Result<(), Fail> {
    let alloc = rt.alloc();
    let columns = one(alloc, Kind::Text)?;
    let mut text = vec![in alloc; b'x', b'\n']?;
    text.resize(65_538, b'a')?;
    let mut good = opener(alloc, text.as_slice(), Script::calm(alloc))?;
    match read_all(alloc, &mut good, &columns)? {
        Some(seen) => assert!(rt; seen.fault.is_none() && seen.rows.len() == 1),
        None => assert!(rt; false, "no end"),
    }
    text.push(b'a')?;
    let mut bad = opener(alloc, text.as_slice(), Script::calm(alloc))?;
    match read_all(alloc, &mut bad, &columns)? {
        Some(seen) => {
            assert_eq!(rt; seen.fault, Some(MemberFault::BadField { k: 1, column: 0 }));
        }
        None => assert!(rt; false, "no end"),
    }
    Ok(())
}

#[test]
fn a_source_that_fails_gives_the_rows_that_came(rt: HostRuntime) -> Result<(), Fail> {
    let alloc = rt.alloc();
    let columns = one(alloc, Kind::Text)?;
    let script = Script {
        turns: vec![in alloc; Turn::Give(9), Turn::Failed]?,
        then: Turn::Give(9),
    };
    let mut opener = opener(alloc, b"x\noslo\nparis\n", script)?;
    match read_all(alloc, &mut opener, &columns)? {
        Some(seen) => {
            assert_eq!(rt; seen.fault, Some(MemberFault::Read));
            assert_eq!(rt; seen.rows.len(), 1);
            assert!(rt; seen.again);
        }
        None => assert!(rt; false, "no end"),
    }
    Ok(())
}

#[test]
fn rows_of_a_whole_text(rt: HostRuntime) -> Result<(), Fail> {
    let alloc = rt.alloc();
    let columns = one(alloc, Kind::Bool)?;
    let SourceRows { rows, verdict } = read_rows(
        alloc,
        &columns,
        b"x\ntrue\nfalse\nno\ntrue",
        true,
    )?;
    assert_eq!(rt; rows.len(), 2);
    assert_eq!(rt; verdict, Some(MemberFault::BadField { k: 3, column: 0 }));
    Ok(())
}
