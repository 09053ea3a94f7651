//! What every outside object counts and keeps of its calls. Each object, in memory or real, is written with these words.

ghost use Rattle.std.specs.Prelude.{◌≡◌, ◌+◌, ◌<◌, ◌≤◌, ◌↔◌, min, [], ◌∷◌, ◌++◌, None, Some, OnOk, OnErr, IfOk, IfErr};
ghost use Rattle.std.specs.IoError.{error_kind};
ghost use Rattle.med_prelude.specs.Counts.{Rose, greatest_count};
ghost use Rattle.med_base.specs.Clocks.{rise_after};

use crate::outside::{OutsideFault, SpillFault};
use med_prelude::{Listed, Text, raise};
use std::alloc::{AllocError, Global};
use std::io::{Error, ErrorKind};

/// Puts a name at the end of those that were asked for.
pub fn note_asked(alloc: Global, asked: &mut Listed<Text>, name: &str) -> Result<(), AllocError>
    ensures ok { OnOk result (asked.new ≡ asked.old ++ name.now ∷ []) }
    ensures err { OnErr result (asked.new ≡ asked.old) }
{
    asked.push(Text::from_str(alloc, name)?)?;
    Ok(())
}

/// Counts a failure, and gives it for the answer.
pub fn counted_fault(faults: &mut u64) -> OutsideFault
    ensures fault { result ≡ OutsideFault.Failed }
    ensures kept { faults.old ≤ faults.new }
    ensures counted { faults.new ≡ min (faults.old + 1) greatest_count }
{
    *faults = raise(*faults);
    OutsideFault::Failed
}

/// What an error of the system means: want of memory, or a failure, which is counted.
pub fn fault_of(error: Error, faults: &mut u64) -> OutsideFault
    ensures memory { (result ≡ OutsideFault.NoMemory) ↔ (error_kind error ≡ ErrorKind.OutOfMemory) }
    ensures kept { faults.old ≤ faults.new }
    ensures counted { result ≡ OutsideFault.Failed → Rose faults.old faults.new }
{
    match error.kind() {
        ErrorKind::OutOfMemory => OutsideFault::NoMemory,
        _ => counted_fault(faults),
    }
}

/// The length of a spill file after an append of `need` bytes, or that it has no room for them.
pub fn end_within(len: u64, need: u64, limit: u64) -> Result<u64, SpillFault>
    ensures end { IfOk result (λ end. end ≡ len + need) }
    ensures fits { OnOk result (len + need ≤ limit) }
    ensures full { IfErr result (λ fault. fault ≡ SpillFault.Full need limit) }
    ensures exceeds { OnErr result (limit < len + need) }
{
    match len.checked_add(need) {
        Some(end) if end <= limit => Ok(end),
        _ => Err(SpillFault::Full { need, limit }),
    }
}

/// What a clock keeps of its readings.
#[derive(Clone, Copy, Debug)]
pub struct Readings {
    /// The last reading, in milliseconds.
    pub last: Option<u64>,
    /// By how many milliseconds they rose, all rises together.
    pub risen: u64,
}

impl Readings {
    /// Those of a clock that was never read.
    pub fn new() -> Self
        ensures last { result.last ≡ None }
        ensures risen { result.risen ≡ 0 }
    {
        Readings {
            last: None,
            risen: 0,
        }
    }

    /// Keeps a reading, in milliseconds.
    pub fn note(&mut self, reading: u64)
        ensures last { self.new.last ≡ Some reading }
        ensures risen { self.new.risen ≡ rise_after self.old.last reading self.old.risen }
        ensures rises { self.old.risen ≤ self.new.risen }
    {
        if let Some(last) = self.last {
            self.risen = self.risen.saturating_add(reading.saturating_sub(last));
        }
        self.last = Some(reading);
    }
}
