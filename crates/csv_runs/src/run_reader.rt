//! One reader of CSV for all frames of a run.

ghost use Rattle.std.specs.Prelude.{◌≡◌, [], true, IfOk, OnErr};
ghost use Rattle.csv.specs.Records.{fields_of};
ghost use Rattle.csv_frame.specs.Frames.{frames};
ghost use Rattle.csv_runs.specs.Runs.{is_run};
ghost use Rattle.csv_runs.specs.RunReading.{GivesNext, ReadsRun, unread_frames};

use csv::{ByteRecord, Reader, ReaderBuilder};
use std::alloc::{AllocError, Global};
use std::marker::Model;

/// Reads the records of a run's frames, one after the other. A contract sees it as the frames that are
/// still to be read.
#[derive(Drop)]
pub struct RunReader<'a> {
    reader: Reader<&'a [u8]>,
    // Whether a record may be left: the reader neither found the run's end nor failed.
    goes_on: bool,
}

impl<'a> Model for RunReader<'a> {
    ghost use Rattle.std.specs.Prelude.{◌≡◌, List, Option, true};
    ghost use Rattle.med_prelude.specs.Texts.{Bytes};
    ghost use Rattle.csv_runs.specs.RunReading.{ReadsRun, unread_frames};

    ghost Value = { List (Option Bytes) };

    ghost view = { λ a. unread_frames a.goes_on a.reader };

    ghost invariant = { λ a. a.goes_on ≡ true → ReadsRun a.reader };
}

fn read_next(reader: &mut Reader<&[u8]>, fields: &mut ByteRecord) -> Result<bool, AllocError>
    requires { ReadsRun reader.old }
    ensures stays { IfOk result (λ found. found ≡ true → ReadsRun reader.new) }
    ensures gives { IfOk result (λ found. GivesNext found (unread_frames true reader.old) (unread_frames found reader.new) (fields_of fields.new)) }
{
    reader.read_byte_record(fields).map_err(|_| AllocError)
}

impl<'a> RunReader<'a> {
    /// The bytes are as many as `run_length` tells.
    pub fn new(alloc: Global, run: &'a [u8]) -> RunReader<'a>
        requires { is_run run.now ≡ true }
        ensures { result ≡ frames run.now true }
    {
        RunReader {
            reader: ReaderBuilder::new()
                .has_headers(false)
                .flexible(true)
                .from_reader(alloc, run),
            goes_on: true,
        }
    }

    /// The record of the next frame, and whether there is one. After an error none is left.
    pub fn next(&mut self, fields: &mut ByteRecord) -> Result<bool, AllocError>
        ensures next { IfOk result (λ found. GivesNext found self.old self.new (fields_of fields.new)) }
        ensures failed { OnErr result (self.new ≡ []) }
    {
        if !self.goes_on {
            return Ok(false);
        }
        self.goes_on = false;
        self.goes_on = read_next(&mut self.reader, fields)?;
        Ok(self.goes_on)
    }
}
