//! The shelf: named texts, such as a catalogue, a query and a plan.

ghost use Rattle.std.specs.Prelude.{◌≡◌, ◌≤◌, ℕ, List, IfOk};
ghost use Rattle.med_prelude.specs.Counts.{Rose};
ghost use Rattle.med_prelude.specs.Texts.{Bytes, ToldBytes};
ghost use Rattle.med_base.specs.Outside.{IfFailed, AsksFor, IsFetched};

use crate::outside::FetchFault;
use std::alloc::Global;

/// The most bytes that a fetch gives: one more than a text may have, so that a longer one shows.
pub const FETCHED_MOST: usize = 1_048_577;

/// A shelf of named texts. What a name means, as a path, is the shelf's own.
///
/// A text is bytes and need not be UTF-8. A name without a text is a failure. Only want of memory may be
/// answered without the shelf's count of faults having risen; a shelf that failed may be asked again.
pub trait Shelf {
    /// The text that is told at a name. No call changes it.
    ghost told: { Self → Bytes → ToldBytes };

    /// How often it failed.
    ghost faults: { Self → ℕ };

    /// The names of its calls, in order. Room for a name is made before anything else.
    ghost asked: { Self → List Bytes };

    /// The text of that name, or its first `FETCHED_MOST` bytes where it is longer, so a text of that length is
    /// too long.
    fn fetch(&mut self, alloc: Global, name: &str) -> Result<Vec<u8>, FetchFault>
        ensures text { IfOk result (λ bytes. IsFetched (told self.old name.now) bytes.items) }
        ensures told { told self.new ≡ told self.old }
        ensures asked { AsksFor result name.now (asked self.old) (asked self.new) }
        ensures faults { faults self.old ≤ faults self.new }
        ensures failed { IfFailed result (Rose (faults self.old) (faults self.new)) };
}
