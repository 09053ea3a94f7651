//! The clock. Nothing is known of its readings: they may also fall.

ghost use Rattle.std.specs.Prelude.{◌≡◌, ◌≤◌, ℕ, Option, Some};
ghost use Rattle.med_base.specs.Clocks.{rise_after};

/// A clock, which has no fault: one that can't be read reads what it read last.
///
/// Only differences of its readings mean something. They may stand still or fall, and a caller that measures
/// time goes by `risen`, which does not fall.
pub trait Clock {
    /// Its last reading.
    ghost last: { Self → Option ℕ };

    /// By how much its readings rose, all rises together. What they fall isn't taken off.
    ghost risen: { Self → ℕ };

    /// A reading, in whole milliseconds from a start that the clock chooses.
    fn now(&mut self) -> u64
        ensures last { last self.new ≡ Some result }
        ensures risen { risen self.new ≡ rise_after (last self.old) result (risen self.old) }
        ensures rises { risen self.old ≤ risen self.new };

    /// Lets so many milliseconds pass, or doesn't. It is no reading.
    fn rest(&mut self, ms: u32)
        ensures last { last self.new ≡ last self.old }
        ensures risen { risen self.new ≡ risen self.old };
}
