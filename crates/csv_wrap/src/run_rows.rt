//! The rows of a run of frames.

ghost use Rattle.std.specs.Prelude.{◌≡◌, ◌+◌, ◌<◌, ◌≤◌, ◌^◌, length, take, true, IfOk, OnErr};
ghost use Rattle.csv_frame.specs.Frames.{frames};
ghost use Rattle.csv_runs.specs.Runs.{is_run};
ghost use Rattle.csv_wrap.specs.Ahead.{ReadsFrames, unless_bad};
ghost use Rattle.csv_wrap.specs.Readings.{Reading, rows_then, read_then};

use crate::frame_rows::{FrameRead, read_record};
use csv::ByteRecord;
use csv_runs::RunReader;
use med_base::MemberFault;
use std::alloc::{AllocError, Global};
use std::collections::VecDeque;
use tuple_core::{Column, Row};

/// Puts what a frame gave behind the rows; a fault is handed back.
pub fn put(rows: &mut VecDeque<Row>, read: FrameRead) -> Result<Option<MemberFault>, AllocError>
    ensures put { IfOk result (λ bad. (more : Reading) → rows_then rows.old.items (read_then read more) ≡ rows_then rows.new.items (unless_bad bad more)) }
    ensures front { take (length rows.old.items) rows.new.items ≡ rows.old.items }
    ensures failed { OnErr result (rows.new.items ≡ rows.old.items) }
    ensures most { length rows.new.items ≤ length rows.old.items + 1 }
{
    match read {
        FrameRead::Header => Ok(None),
        FrameRead::Row(row) => {
            rows.push_back(row)?;
            Ok(None)
        }
        FrameRead::Bad(fault) => Ok(Some(fault)),
    }
}

/// Reads all frames of a run by one reader, up to the first bad one, and counts them. Where memory runs out, the
/// rows of some of them may stand behind those before.
pub fn read_run(
    alloc: Global,
    columns: &[Column],
    run: &[u8],
    number: &mut u64,
    rows: &mut VecDeque<Row>,
) -> Result<Option<MemberFault>, AllocError>
    requires run { is_run run.now ≡ true }
    requires short { length columns.now ≤ 64 }
    requires few { number.old + length run.now < 2 ^ 64 }
    ensures read { IfOk result (λ bad. ReadsFrames columns.now (frames run.now true) rows.old.items number.old rows.new.items bad number.new) }
    ensures front { take (length rows.old.items) rows.new.items ≡ rows.old.items }
    ensures counted { length rows.new.items + number.old ≤ length rows.old.items + number.new }
    ensures number { number.new ≤ number.old + length run.now }
{
    let mut reader = RunReader::new(alloc, run);
    let mut record = ByteRecord::new(alloc);
    'records: loop {
        if !reader.next(&mut record)? {
            return Ok(None);
        }
        let read = read_record(alloc, columns, *number, &record)?;
        *number += 1;
        if let Some(fault) = put(rows, read)? {
            return Ok(Some(fault));
        }
    }
}
