//! What one frame gives: the header, a row, or a fault.

ghost use Rattle.std.specs.Prelude.{◌≡◌, ◌<◌, ◌≤◌, List, length, Some, None, IfOk};
ghost use Rattle.csv.specs.Records.{fields_of};
ghost use Rattle.tuple_core.specs.declared.columns.Column.{Column};
ghost use Rattle.csv_wrap.specs.Rows.{frame_read, record_read};

use crate::fields::{named_count, row_of};
use csv::ByteRecord;
use csv_runs::record_of;
use med_base::MemberFault;
use med_prelude::ReadFault;
use std::alloc::{AllocError, Global};
use tuple_core::{Column, Row};

/// What a frame is to the columns of a relation.
#[derive(Drop)]
pub enum FrameRead {
    Header,
    Row(Row),
    Bad(MemberFault),
}

fn read_header(columns: &[Column], fields: &ByteRecord) -> FrameRead
    requires { length columns.now ≤ 64 }
    ensures { result ≡ record_read columns.now 0 (Some (fields_of fields.now)) }
{
    let found = named_count(columns, fields);
    if found == columns.len() && fields.len() == columns.len() {
        FrameRead::Header
    } else {
        FrameRead::Bad(MemberFault::Header {
            found: found as u32,
        })
    }
}

fn read_row(
    alloc: Global,
    columns: &[Column],
    number: u64,
    fields: &ByteRecord,
) -> Result<FrameRead, AllocError>
    requires short { length columns.now ≤ 64 }
    requires later { 0 < number }
    ensures { IfOk result (λ read. read ≡ record_read columns.now number (Some (fields_of fields.now))) }
{
    if fields.len() != columns.len() {
        return Ok(FrameRead::Bad(MemberFault::BadRecord { k: number }));
    }
    match row_of(alloc, columns, fields) {
        Ok(row) => Ok(FrameRead::Row(row)),
        Err(ReadFault::Broken(column)) => Ok(FrameRead::Bad(MemberFault::BadField {
            k: number,
            column,
        })),
        Err(ReadFault::NoMemory) => Err(AllocError),
    }
}

/// What the record of the frame of that number gives; the one of number 0 is the header.
pub fn read_record(
    alloc: Global,
    columns: &[Column],
    number: u64,
    fields: &ByteRecord,
) -> Result<FrameRead, AllocError>
    requires { length columns.now ≤ 64 }
    ensures { IfOk result (λ read. read ≡ record_read columns.now number (Some (fields_of fields.now))) }
{
    if number == 0 {
        Ok(read_header(columns, fields))
    } else {
        read_row(alloc, columns, number, fields)
    }
}

fn no_record(number: u64) -> FrameRead
    ensures { (columns : List Column) → result ≡ record_read columns number None }
{
    if number == 0 {
        FrameRead::Bad(MemberFault::Header { found: 0 })
    } else {
        FrameRead::Bad(MemberFault::BadRecord { k: number })
    }
}

/// What the frame of that number gives, read alone.
pub fn read_frame(
    alloc: Global,
    columns: &[Column],
    number: u64,
    frame: &[u8],
) -> Result<FrameRead, AllocError>
    requires { length columns.now ≤ 64 }
    ensures { IfOk result (λ read. read ≡ frame_read columns.now number (Some frame.now)) }
{
    match record_of(alloc, frame)? {
        Some(record) => read_record(alloc, columns, number, &record),
        None => Ok(no_record(number)),
    }
}
