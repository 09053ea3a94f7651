//! Texts written to a sink in memory, with expected bytes by hand.

mod faults;

ghost use Rattle.std.specs.Prelude.{IfOk};
ghost use Rattle.tuple_core.specs.Values.{FitsRow, FitsValue};

use super::*;
use med_base::{MemSink, SinkFault};
use row_pages::Rows;
use std::alloc::{AllocError, Global};
use std::test::Fail;
use tuple_core::{Kind, Row, Value, parse_value};

fn text(alloc: Global, text: &str) -> Result<Value, AllocError>
    ensures { IfOk result FitsValue }
{
    parse_value(alloc, Kind::Text, text.as_bytes())?.ok_or(AllocError)
}

fn mixed(alloc: Global) -> Result<Rows, AllocError> {
    let mut rows = Rows::new(alloc);
    let first = vec![in alloc;
        text(alloc, "Inn, \"Old\"")?,
        Value::Int(-7),
        Value::Bool(true),
    ]?;
    rows.push(alloc, &Row::new(first))?;
    rows.push(alloc, &Row::new(vec![in alloc; text(alloc, "")?]?))?;
    let third = vec![in alloc; text(alloc, "a\nb")?, Value::Int(0), Value::Bool(false)]?;
    rows.push(alloc, &Row::new(third))?;
    Ok(rows)
}

const LINES: &[u8] = b"\"Inn, \"\"Old\"\"\",-7,true\n\"\"\n\"a\nb\",0,false\n";

#[test]
fn quotes_where_it_is_needed(rt: HostRuntime) -> Result<(), Fail> {
    for (rows, text) in [(mixed(rt.alloc())?, LINES), (Rows::new(rt.alloc()), b"")] {
        for most in [1, 3, 1000] {
            let mut sink = MemSink::new(rt.alloc(), most, Vec::new(rt.alloc()));
            write_rows(rt.alloc(), &rows, &mut sink).or(Err(AllocError))?;
            assert_eq!(rt; sink.bytes(), text, "{most:?}");
        }
    }
    Ok(())
}

#[test]
fn leaves_a_prefix_where_the_sink_fails(rt: HostRuntime) -> Result<(), Fail> {
    let rows = mixed(rt.alloc())?;
    let mut sink = MemSink::new(rt.alloc(), 5, vec![in rt.alloc(); 2]?);
    let wrote = write_rows(rt.alloc(), &rows, &mut sink);
    assert!(rt; matches!(wrote, Err(SinkFault::Failed)));
    assert_eq!(rt; sink.bytes(), b"\"Inn, \"\"Ol".as_slice());
    Ok(())
}

// A row of one text of so many bytes.
fn long_row(alloc: Global, size: usize) -> Result<Row, AllocError> {
    let bytes = vec![in alloc; b'x'; size]?;
    let value = parse_value(alloc, Kind::Text, bytes.as_slice())?.ok_or(AllocError)?;
    Ok(Row::new(vec![in alloc; value]?))
}

// The sink takes all that it is given, and fails at its second call.
#[test]
fn writes_in_pieces_of_64_kib_or_one_line(rt: HostRuntime) -> Result<(), Fail> {
    for (size, count, least, most) in [(9, 20_000, 10_000, 65_536), (65_536, 3, 65_537, 65_537)] {
        let row = long_row(rt.alloc(), size)?;
        let mut rows = Rows::new(rt.alloc());
        for _ in 0..count {
            rows.push(rt.alloc(), &row)?;
        }
        let mut sink = MemSink::new(rt.alloc(), usize::MAX, vec![in rt.alloc(); 1]?);
        let wrote = write_rows(rt.alloc(), &rows, &mut sink);
        let written = sink.bytes().len();
        assert!(rt; matches!(wrote, Err(SinkFault::Failed)));
        assert!(rt;
            least <= written && written <= most,
            "{written:?} of {size:?}"
        );
    }
    Ok(())
}
