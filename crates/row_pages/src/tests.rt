//! What no clause says: that each call gives an answer, compared with lists by hand.

ghost use Rattle.std.specs.Prelude.{IfOk};
ghost use Rattle.tuple_core.specs.Values.{FitsValue};

mod sorting;

use crate::Rows;
use std::alloc::Global;
use std::test::Fail;
use tuple_core::{Kind, Row, Value, parse_value};

// Whole numbers and truth values stand for themselves, and every other field is a text.
fn value_of(alloc: Global, field: &str) -> Result<Value, Fail>
    ensures { IfOk result FitsValue }
{
    for kind in [Kind::Int, Kind::Bool] {
        if let Some(value) = parse_value(alloc, kind, field.as_bytes())? {
            return Ok(value);
        }
    }
    Ok(parse_value(alloc, Kind::Text, field.as_bytes())?.ok_or("no value")?)
}

// The row whose fields stand between bars.
fn row_of(alloc: Global, line: &str) -> Result<Row, Fail> {
    let mut values = Vec::new(alloc);
    for field in line.split('|') {
        if values.len() == Row::MOST_VALUES {
            return Err(Fail::from("too many values"));
        }
        values.push(value_of(alloc, field)?)?;
    }
    Ok(Row::new(values))
}

// A row of each line.
fn rows_of(alloc: Global, lines: &str) -> Result<Rows, Fail> {
    let mut rows = Rows::new(alloc);
    for line in lines.lines() {
        rows.push(alloc, &row_of(alloc, line)?)?;
    }
    Ok(rows)
}
