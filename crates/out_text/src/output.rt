//! Writes a text to a sink.

ghost use Rattle.std.specs.Prelude.{◌≡◌, ℕ, ◌≤◌, OnOk, OnErr, take};
ghost use Rattle.med_base.specs.Outside.{IfFailed};
ghost use Rattle.med_prelude.specs.Counts.{Rose};
ghost use Rattle.med_prelude.specs.Texts.{told_with};

use med_base::{Sink, SinkFault};
use std::alloc::Global;

/// Writes the whole text, as many bytes at a time as the sink takes. Where that fails, a prefix is written.
pub fn write_all<W: Sink>(alloc: Global, out: &mut W, text: &[u8]) -> Result<(), SinkFault>
    ensures ok { OnOk result (W.written out.new ≡ told_with (W.written out.old) text.now) }
    ensures err { OnErr result ((n : ℕ) × (W.written out.new ≡ told_with (W.written out.old) (take n text.now))) }
    ensures faults { W.faults out.old ≤ W.faults out.new }
    ensures failed { IfFailed result (Rose (W.faults out.old) (W.faults out.new)) }
{
    let mut rest = text;
    'writes: while !rest.is_empty() {
        let taken = out.write(alloc, rest)?;
        let (_, after) = rest.split_at(taken);
        rest = after;
    }
    Ok(())
}
