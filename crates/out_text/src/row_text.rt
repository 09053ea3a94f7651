//! The text of rows: a line of CSV for each, made piece by piece.

ghost use Rattle.std.specs.Prelude.{◌≡◌, ◌<◌, ◌≤◌, ◌++◌, Some, false, length, map, take, IfOk, OnOk};
ghost use Rattle.csv.specs.Records.{fields_of};
ghost use Rattle.csv.specs.Writing.{default_writer, fields_written, has_written, row_text, text_written, writer_setup};
ghost use Rattle.tuple_core.specs.RowText.{rows_text};
ghost use Rattle.tuple_core.specs.Values.{value_text};

use csv::{ByteRecord, Writer, WriterBuilder};
use row_pages::Rows;
use std::alloc::{AllocError, Global};
use tuple_core::{EncodedRow, text_of};

/// A piece with the lines of more than one row has at most so many bytes.
const PIECE: usize = 65_536;

// No value's text, quoted and with what follows it, is longer than so many times its encoding.
const GREATEST_GROWTH: usize = 3;

/// Makes the record of a row in place, over a lent buffer.
fn fill_record(
    fields: &mut ByteRecord,
    buffer: &mut Vec<u8>,
    row: &EncodedRow<'_>,
) -> Result<(), AllocError>
    ensures { OnOk result (fields_of fields.new ≡ map value_text row.now) }
{
    fields.clear();
    for value in row.values() {
        buffer.clear();
        text_of(value, buffer)?;
        fields.push_field(buffer.as_slice())?;
    }
    Ok(())
}

/// The text of the rows from an index on, of so many as a piece has room for, and the index of the row behind them.
/// Rows may have different numbers of values.
pub fn piece_of_rows(
    alloc: Global,
    rows: &Rows,
    from: usize,
) -> Result<(Vec<u8>, usize), AllocError>
    requires { from < length rows.now }
    ensures goes { IfOk result (λ piece. (from < piece.1) × (piece.1 ≤ length rows.now)) }
    ensures text { IfOk result (λ piece. rows_text (take from rows.now) ++ piece.0.items ≡ rows_text (take piece.1 rows.now)) }
{
    let mut writer = WriterBuilder::new()
        .flexible(true)
        .from_writer(Vec::with_capacity(alloc, PIECE)?);
    let mut fields = ByteRecord::new(alloc);
    let mut buffer = Vec::new(alloc);
    let mut room = PIECE;
    let mut next = from;
    let count = rows.len();
    'rows: while next < count {
        let Some(row) = rows.get(next) else {
            unreachable!();
        };
        let most = row.bytes().len().saturating_mul(GREATEST_GROWTH);
        if most > room && next > from {
            break;
        }
        room = room.saturating_sub(most);
        fill_record(&mut fields, &mut buffer, &row)?;
        match writer.write_byte_record(&fields) {
            Ok(()) => {}
            Err(_) => return Err(AllocError),
        }
        next += 1;
    }
    match writer.into_inner() {
        Ok(text) => Ok((text, next)),
        Err(_) => Err(AllocError),
    }
}
