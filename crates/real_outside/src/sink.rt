//! A sink over a writer, such as standard output.

ghost use Rattle.std.specs.Prelude.{◌≡◌, ◌≤◌, [], length, None, Ok, IfOk};
ghost use Rattle.med_prelude.specs.Counts.{Rose};
ghost use Rattle.med_base.specs.Outside.{IfFailed, TakesSomeByte};
ghost use Rattle.real_outside.specs.Known.{HoldsTaken};

use crate::again::write_again;
use med_base::bookkeeping::{counted_fault, fault_of};
use med_base::{Sink, SinkFault};
use std::alloc::Global;
use std::io::Write;

/// A sink over a writer. It tells no bytes. A write that takes none of a piece is a failure.
#[derive(Drop)]
pub struct StdSink<W> {
    writer: W,
    faults: u64,
}

impl<W: Write> StdSink<W> {
    /// A sink that wrote nothing yet.
    pub fn new(writer: W) -> Self
        ensures written { ⟦<StdSink<W> as Sink>⟧.written result ≡ None }
        ensures faults { ⟦<StdSink<W> as Sink>⟧.faults result ≡ 0 }
    {
        StdSink { writer, faults: 0 }
    }
}

impl<W: Write> Sink for StdSink<W> {
    ghost written = { λ _. None };

    ghost faults = { λ s. s.faults };

    fn write(&mut self, _alloc: Global, piece: &[u8]) -> Result<usize, SinkFault>
        ensures fits { IfOk result (λ n. n ≤ length piece.now) }
        ensures some { IfOk result (λ n. TakesSomeByte n piece.now) }
        ensures empty { piece.now ≡ [] → (result ≡ Ok 0) × (self.new.faults ≡ self.old.faults) }
        ensures faults { self.old.faults ≤ self.new.faults }
        ensures failed { IfFailed result (Rose self.old.faults self.new.faults) }
        ensures held { HoldsTaken (W.contents self.old.writer) (W.contents self.new.writer) result piece.now }
    {
        if piece.is_empty() {
            return Ok(0);
        }
        match write_again(&mut self.writer, piece) {
            Ok(0) => Err(counted_fault(&mut self.faults)),
            Ok(count) => Ok(count),
            Err(error) => Err(fault_of(error, &mut self.faults)),
        }
    }
}

#[cfg(test)]
mod tests {
    use super::*;
    use med_base::OutsideFault;
    use std::io;
    use std::io::{Error, ErrorKind};
    use std::test::Fail;

    /// It takes two bytes at most, is interrupted at its first write, fails at its third, and is full at its fourth.
    #[derive(Drop)]
    struct Flaky {
        writes: u32,
    }

    impl Write for Flaky {
        fn write(&mut self, piece: &[u8]) -> io::Result<usize> {
            self.writes = self.writes.saturating_add(1);
            match self.writes {
                1 => Err(Error::from(ErrorKind::Interrupted)),
                3 => Err(Error::other("broken")),
                4 => Ok(0),
                _ => Ok(piece.len().min(2)),
            }
        }

        fn flush(&mut self) -> io::Result<()> {
            Ok(())
        }
    }

    #[test]
    fn writes_on_where_it_was_interrupted(rt: HostRuntime) -> Result<(), Fail> {
        let mut sink = StdSink::new(Flaky { writes: 0 });
        let answers = [
            (Ok(2), 0),
            (Err(OutsideFault::Failed), 1),
            (Err(OutsideFault::Failed), 2),
            (Ok(2), 2),
        ];
        for (answer, faults) in answers {
            assert_eq!(rt; sink.write(rt.alloc(), b"abc"), answer);
            assert_eq!(rt; sink.faults, faults);
        }
        assert_eq!(rt; sink.write(rt.alloc(), b""), Ok(0));
        Ok(())
    }
}
