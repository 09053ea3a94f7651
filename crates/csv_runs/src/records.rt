//! The record of a frame.

ghost use Rattle.std.specs.Prelude.{◌≡◌, IfOk, option_map};
ghost use Rattle.csv.specs.Records.{fields_of};
ghost use Rattle.csv_runs.specs.Records.{good_record};
ghost use Rattle.csv_frame.specs.Frames.{has_even_quotes};

use csv::{ByteRecord, ReaderBuilder};
use std::alloc::{AllocError, Global};

fn quotes_are_even(frame: &[u8]) -> bool
    ensures { result ≡ has_even_quotes frame.now }
{
    frame.iter().filter(|byte| **byte == b'"').count() % 2 == 0
}

/// The one record that the frame's bytes are, read alone. Of bytes in memory nothing but want of memory can
/// fail.
pub fn record_of(alloc: Global, frame: &[u8]) -> Result<Option<ByteRecord>, AllocError>
    ensures { IfOk result (λ found. option_map fields_of found ≡ good_record frame.now) }
{
    if !quotes_are_even(frame) {
        return Ok(None);
    }
    let mut reader = ReaderBuilder::new()
        .has_headers(false)
        .flexible(true)
        .from_reader(alloc, frame);
    let mut record = ByteRecord::new(alloc);
    let mut next = ByteRecord::new(alloc);
    match reader.read_byte_record(&mut record) {
        Ok(true) => {}
        Ok(false) => return Ok(None),
        Err(_) => return Err(AllocError),
    }
    match reader.read_byte_record(&mut next) {
        Ok(false) => Ok(Some(record)),
        Ok(true) => Ok(None),
        Err(_) => Err(AllocError),
    }
}
