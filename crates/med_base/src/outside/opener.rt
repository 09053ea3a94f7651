//! The opener: it gives a fresh source at a location.

ghost use Rattle.std.specs.Prelude.{◌≡◌, ◌≤◌, ℕ, List, [], IfOk, IfSome};
ghost use Rattle.med_prelude.specs.Counts.{Rose};
ghost use Rattle.med_prelude.specs.Texts.{Bytes, ToldBytes};
ghost use Rattle.med_base.specs.Outside.{IfFailed, AsksFor, GivesMark, StaysTold, most_left};

use crate::outside::{OpenFault, Source};
use std::alloc::Global;

/// An opener of locations. What a location means, as a path or a name, is the opener's own.
///
/// Each call opens anew, from the first byte on, also where the location was opened before. A source doesn't
/// borrow from its opener, and may be pulled in another thread. Only want of memory may be answered without
/// the opener's count of faults having risen; an opener that failed may be asked again.
pub trait Opener {
    type S: Source + Send;

    /// The text that is told at a location. No call changes it.
    ghost told: { Self → Bytes → ToldBytes };

    /// How often it failed.
    ghost faults: { Self → ℕ };

    /// The locations of its calls, in order. Room for a location is made before anything else.
    ghost asked: { Self → List Bytes };

    /// The marks of the sources that it gave, in order.
    ghost given: { Self → List Self.S.Mark };

    /// A fresh source at that location, which has given nothing and can give at most 2^62 bytes. `alloc` is used
    /// for what the opener notes down and for the source.
    fn open_at(&mut self, alloc: Global, location: &str) -> Result<Self::S, OpenFault>
        ensures location { IfOk result (λ s. Self.S.location s ≡ location.now) }
        ensures nothing_taken { IfOk result (λ s. IfSome (Self.S.taken s) (λ bytes. bytes ≡ [])) }
        ensures whole { IfOk result (λ s. StaysTold (told self.old location.now) (Self.S.whole s)) }
        ensures no_faults { IfOk result (λ s. Self.S.faults s ≡ 0) }
        ensures no_waits { IfOk result (λ s. Self.S.waits s ≡ 0) }
        ensures not_dry { IfOk result (λ s. Self.S.dry s ≡ 0) }
        ensures left { IfOk result (λ s. Self.S.left s ≤ most_left) }
        ensures given { GivesMark (λ s. Self.S.mark s) result (given self.old) (given self.new) }
        ensures told { told self.new ≡ told self.old }
        ensures asked { AsksFor result location.now (asked self.old) (asked self.new) }
        ensures faults { faults self.old ≤ faults self.new }
        ensures failed { IfFailed result (Rose (faults self.old) (faults self.new)) };
}
