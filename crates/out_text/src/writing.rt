//! Writes the rows of an answer.

ghost use Rattle.std.specs.Prelude.{◌≡◌, ℕ, ◌≤◌, OnOk, OnErr, take};
ghost use Rattle.med_base.specs.Outside.{IfFailed};
ghost use Rattle.med_prelude.specs.Counts.{Rose};
ghost use Rattle.med_prelude.specs.Texts.{told_with};
ghost use Rattle.tuple_core.specs.RowText.{rows_text};

use crate::output::write_all;
use crate::row_text::piece_of_rows;
use med_base::{Sink, SinkFault};
use row_pages::Rows;
use std::alloc::Global;

/// Writes a line of CSV for each row, in pieces of at most 64 KiB, or of one line where that is longer. Where that fails,
/// a prefix of the text is written.
pub fn write_rows<W: Sink>(alloc: Global, rows: &Rows, out: &mut W) -> Result<(), SinkFault>
    ensures ok { OnOk result (W.written out.new ≡ told_with (W.written out.old) (rows_text rows.now)) }
    ensures err { OnErr result ((n : ℕ) × (W.written out.new ≡ told_with (W.written out.old) (take n (rows_text rows.now)))) }
    ensures faults { W.faults out.old ≤ W.faults out.new }
    ensures failed { IfFailed result (Rose (W.faults out.old) (W.faults out.new)) }
{
    let mut next = 0;
    'pieces: while next < rows.len() {
        let (text, after) = piece_of_rows(alloc, rows, next)?;
        write_all(alloc, out, text.as_slice())?;
        next = after;
    }
    Ok(())
}
