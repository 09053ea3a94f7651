//! Tells the user how a call ended.

ghost use Rattle.med_top.specs.Telling.{EndsTelling};

use med_base::{Sink, SinkFault, Status};
use out_text::write_fault;
use std::alloc::Global;

/// Writes the text of a status, and gives the status that the call ends with: the same, but where memory runs out on
/// the way. Of want of memory nothing is written.
pub fn told_status<E: Sink>(alloc: Global, err: &mut E, status: Status) -> Status
    ensures { EndsTelling (record { old = E.written err.old; new = E.written err.new }) (record { old = E.faults err.old; new = E.faults err.new }) status result }
{
    if status == Status::NoMemory {
        return status;
    }
    match write_fault(alloc, &status, err) {
        Ok(()) => status,
        Err(SinkFault::Failed) => status,
        Err(SinkFault::NoMemory) => Status::NoMemory,
    }
}
