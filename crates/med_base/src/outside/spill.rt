//! Spill files: where rows go that memory has no room for. They belong to one run.

ghost use Rattle.std.specs.Prelude.{◌≡◌, ◌≤◌, ℕ, List};
ghost use Rattle.med_prelude.specs.Counts.{Rose};
ghost use Rattle.med_base.specs.Spills.{FileState, AnswersAppend, AnswersRead, AsksForFile, IfMakeFailed, MakesFile, spill_fault};
ghost use Rattle.med_base.specs.declared.outside.spill.SpillFault.TheVariants.{NoMemory};

use super::OutsideFault;
use med_prelude::Listed;
use std::alloc::{AllocError, AllocFailed, Global};
use thiserror::Error;

/// Why a call of a spill file, or of a set of them, gave nothing.
#[derive(Clone, Copy, Debug, PartialEq, Eq, Error)]
pub enum SpillFault {
    #[error("the spill file failed")]
    Failed,
    /// The length and so many bytes more, those of the append, would pass the file's limit.
    #[error("the spill file has no room for {need} bytes more within its limit of {limit}")]
    Full { need: u64, limit: u64 },
    #[error("out of memory")]
    NoMemory,
}

impl From<OutsideFault> for SpillFault {
    ghost from_gives = { λ fault spill. spill ≡ spill_fault fault };

    fn from(fault: OutsideFault) -> Self {
        match fault {
            OutsideFault::Failed => SpillFault::Failed,
            OutsideFault::NoMemory => SpillFault::NoMemory,
        }
    }
}

impl From<AllocError> for SpillFault {
    ghost from_gives = { λ _ fault. fault ≡ NoMemory };

    fn from(_error: AllocError) -> Self {
        SpillFault::NoMemory
    }
}

impl<T: Drop> From<AllocFailed<T>> for SpillFault {
    ghost from_gives = { λ _ fault. fault ≡ NoMemory };

    fn from(_error: AllocFailed<T>) -> Self {
        SpillFault::NoMemory
    }
}

/// The spill files that a run made, in the order of their numbers.
pub type Files<F> = Listed<F>;

/// A set of spill files: it makes them by number.
///
/// Each call makes a new file, also where the number was made before. A file doesn't borrow from its set, may be
/// used in another thread, and is gone with all that it holds when it is dropped. A set is never full. Only want
/// of memory may be answered without the set's count of faults having risen; a set that failed may be asked again.
pub trait SpillSet {
    type F: Spill + Send;

    /// How often it failed.
    ghost faults: { Self → ℕ };

    /// The numbers and limits of its calls, in order. Room for a pair is made before anything else.
    ghost asked: { Self → List (ℕ × ℕ) };

    /// An empty file of that number, which takes at most `limit` bytes. `alloc` is used for what the set notes
    /// down.
    fn make(&mut self, alloc: Global, number: u32, limit: u64) -> Result<Self::F, SpillFault>
        ensures file { MakesFile (λ f. Self.F.state f) number limit result }
        ensures asked { AsksForFile result (number, limit) (asked self.old) (asked self.new) }
        ensures faults { faults self.old ≤ faults self.new }
        ensures failed { IfMakeFailed result (Rose (faults self.old) (faults self.new)) };
}

/// A spill file, which is written at its end and read anywhere.
///
/// What was appended stays as it is. `Full` comes exactly where the bytes would pass the file's limit, and changes
/// nothing. Only want of memory, in an append, may be answered without the file's count of faults having risen.
/// A failed append leaves the length and what stood there. It may have left anything past the end, and the next
/// append begins at the old end; what is past that one's own end may still be seen.
pub trait Spill: Drop {
    /// Its number and limit, its content with its length, and how often it failed.
    ghost state: { Self → FileState };

    /// Puts the bytes behind the content, all of them, and answers the offset at which they begin.
    fn append(&mut self, alloc: Global, bytes: &[u8]) -> Result<u64, SpillFault>
        ensures appends { AnswersAppend (state self.old) bytes.now result (state self.new) };

    /// Fills the room with the content from an offset on, as far as either goes, and answers how many bytes it
    /// put. An offset past the end puts none. The bytes of the room behind them aren't stated.
    fn read_at(&mut self, at: u64, room: &mut [u8]) -> Result<usize, SpillFault>
        ensures reads { AnswersRead (state self.old) at result room.new (state self.new) };
}
