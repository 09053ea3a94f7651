//! The sink: where the answer's text goes.

ghost use Rattle.std.specs.Prelude.{◌≡◌, ◌≤◌, ℕ, [], length, Ok, IfOk};
ghost use Rattle.med_prelude.specs.Counts.{Rose};
ghost use Rattle.med_prelude.specs.Texts.{ToldBytes, told_with};
ghost use Rattle.med_base.specs.Outside.{IfFailed, bytes_written, TakesSomeByte};

use crate::outside::SinkFault;
use std::alloc::Global;

/// A sink of bytes. It may take less than it is given, so a caller writes on from where it stopped.
///
/// Bytes that it took are out of the caller's hands, whether they have reached anything or not. Only want of
/// memory may be answered without the sink's count of faults having risen. What a failed call was given is
/// not taken, and may be written again.
pub trait Sink {
    /// The bytes that were written so far.
    ghost written: { Self → ToldBytes };

    /// How often it failed.
    ghost faults: { Self → ℕ };

    /// Takes a prefix of the piece, and answers its length. Of a piece that isn't empty it takes a byte or fails;
    /// an empty piece changes nothing.
    fn write(&mut self, alloc: Global, piece: &[u8]) -> Result<usize, SinkFault>
        ensures fits { IfOk result (λ n. n ≤ length piece.now) }
        ensures some { IfOk result (λ n. TakesSomeByte n piece.now) }
        ensures empty { piece.now ≡ [] → (result ≡ Ok 0) × (faults self.new ≡ faults self.old) }
        ensures written { written self.new ≡ told_with (written self.old) (bytes_written result piece.now) }
        ensures faults { faults self.old ≤ faults self.new }
        ensures failed { IfFailed result (Rose (faults self.old) (faults self.new)) };
}
