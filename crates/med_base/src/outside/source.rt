//! A source: a stream of bytes that may be slow, and may fail.

ghost use Rattle.std.specs.Prelude.{◌≡◌, ◌+◌, ◌≤◌, ℕ, length};
ghost use Rattle.med_prelude.specs.Counts.{Rose};
ghost use Rattle.med_prelude.specs.Texts.{Bytes, ToldBytes, told_with, IfBothTold, IsPrefix};
ghost use Rattle.med_base.specs.Outside.{bytes_count, bytes_given, FitsRoom, EndsOnlyWhole, IfPullFailed, CountsWait, dry_after, StaysTold};

/// What a pull gave.
#[derive(Clone, Copy, Debug, PartialEq, Eq)]
pub enum Pull {
    /// So many bytes, at the start of the room. None in a room that isn't empty is the end.
    Bytes(usize),
    NotYet,
    End,
    Failed,
}

/// A source of bytes, of one text that is given from its start to its end.
///
/// `NotYet` may come at any call and as often as it likes: a caller that waits counts how often. A source may be
/// pulled again after each answer; bytes that come after a failure go on where those before it stopped. Why it
/// failed isn't told. A pull takes no memory, so there is no answer for want of it. Dropping a source closes what
/// it reads.
///
/// A clause that is added to `pull` is added to `IsOnePull` too (`csv_wrap/specs/Pulls.antt`), which says that a call
/// made just one.
pub trait Source: Drop {
    /// What a mark is: data that no call changes, by which an opener names what it gave.
    type Mark;

    /// What its opener calls it.
    ghost mark: { Self → Self.Mark };

    /// Where it was opened.
    ghost location: { Self → Bytes };

    /// The bytes that were taken so far.
    ghost taken: { Self → ToldBytes };

    /// The whole text.
    ghost whole: { Self → ToldBytes };

    /// How often it failed.
    ghost faults: { Self → ℕ };

    /// How often it answered `NotYet`.
    ghost waits: { Self → ℕ };

    /// How often it answered `NotYet` since its last other answer, or since its start.
    ghost dry: { Self → ℕ };

    /// The most bytes that it can still give.
    ghost left: { Self → ℕ };

    /// The next bytes, as many as it has at hand and the room takes. Behind them the room's bytes aren't stated.
    fn pull(&mut self, room: &mut [u8]) -> Pull
        ensures fits { FitsRoom result room.new }
        ensures taken { taken self.new ≡ told_with (taken self.old) (bytes_given result room.new) }
        ensures prefix { IfBothTold (taken self.old) (whole self.old) IsPrefix → IfBothTold (taken self.new) (whole self.new) IsPrefix }
        ensures end { EndsOnlyWhole result (length room.new) (taken self.new) (whole self.new) }
        ensures whole { StaysTold (whole self.old) (whole self.new) }
        ensures location { location self.new ≡ location self.old }
        ensures mark { mark self.new ≡ mark self.old }
        ensures faults { faults self.old ≤ faults self.new }
        ensures failed { IfPullFailed result (Rose (faults self.old) (faults self.new)) }
        ensures waits { CountsWait result (waits self.old) (waits self.new) }
        ensures dry { dry self.new ≡ dry_after result (dry self.old) }
        ensures left { left self.new + bytes_count result ≤ left self.old };
}
