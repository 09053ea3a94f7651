//! The rows of a source's bytes, up to the first bad frame.

ghost use Rattle.std.specs.Prelude.{◌≡◌, ◌≤◌, length, Some, IfOk};
ghost use Rattle.csv_wrap.specs.Readings.{source_reading, whole_reading};

use crate::frame_rows::{FrameRead, read_frame};
use csv_frame::{FirstFrame, first_frame};
use med_base::MemberFault;
use std::alloc::{AllocError, Global};
use tuple_core::{Columns, Row};

/// The rows of a source before its first bad frame, and that frame's fault if there is one.
#[derive(Drop)]
pub struct SourceRows {
    pub rows: Vec<Row>,
    pub verdict: Option<MemberFault>,
}

/// Reads the bytes of a source of these columns, whose header is frame 0. Only bytes that have ended have a
/// last frame without a line feed, or lack a header for good.
pub fn read_rows(
    alloc: Global,
    columns: &Columns,
    bytes: &[u8],
    ended: bool,
) -> Result<SourceRows, AllocError>
    requires { length columns.now ≤ 64 }
    ensures { IfOk result (λ read. whole_reading read ≡ source_reading columns.now bytes.now ended) }
{
    let columns = columns.as_slice();
    let mut rows = Vec::new(alloc);
    let mut rest = bytes;
    let mut number = 0u64;
    loop {
        match first_frame(rest, ended) {
            FirstFrame::Frame { frame, rest: after } => {
                match read_frame(alloc, columns, number, frame)? {
                    FrameRead::Header => {}
                    FrameRead::Row(row) => rows.push(row)?,
                    FrameRead::Bad(fault) => return Ok(bad(rows, fault)),
                }
                rest = after;
                number += 1;
            }
            FirstFrame::TooLong => return Ok(bad(rows, MemberFault::TooLong { k: number })),
            FirstFrame::Nothing => {
                if ended && number == 0 {
                    return Ok(bad(rows, MemberFault::Header { found: 0 }));
                }
                return Ok(SourceRows {
                    rows,
                    verdict: None,
                });
            }
        }
    }
}

fn bad(rows: Vec<Row>, fault: MemberFault) -> SourceRows
    ensures { whole_reading result ≡ record { rows = rows.items; verdict = Some fault } }
{
    SourceRows {
        rows,
        verdict: Some(fault),
    }
}
