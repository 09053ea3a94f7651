//! Who acts in a net, and what came of a step.

ghost use Rattle.std.specs.Prelude.{◌≡◌};
ghost use Rattle.step_core.specs.Going.{then};

use med_base::{MemberName, Name};
use row_match::Side;

/// Who makes a step.
#[derive(Clone, Copy, Debug, PartialEq, Eq)]
pub enum Actor {
    /// A member: its next row that is held is accepted; where none is, its source is pulled once.
    Pull(MemberName),
    /// The one that takes the rows of this atom or join.
    Edge(Name),
    /// This atom or join, once all its rows were given: it says that no more will come.
    Closing(Name),
}

/// What came of a step.
#[derive(Clone, Copy, Debug, PartialEq, Eq)]
pub enum StepEnd {
    Moved,
    /// There is nothing to do for the actor, or a source answered that nothing is there yet.
    Still,
    /// Memory ran out. The step may be made again.
    NoMemory,
}

impl StepEnd {
    /// The end of two parts, one after the other: they moved where one of them did.
    pub(crate) fn then(self, next: StepEnd) -> StepEnd
        ensures { result ≡ then self next }
    {
        match (self, next) {
            (StepEnd::NoMemory, _) | (_, StepEnd::NoMemory) => StepEnd::NoMemory,
            (StepEnd::Still, end) => end,
            (StepEnd::Moved, _) => StepEnd::Moved,
        }
    }
}

/// What an actor means of a join.
#[derive(Clone, Copy, Debug, PartialEq, Eq)]
pub enum Turn {
    /// An item of the edge on that side is to be taken.
    Take(Side),
    /// The end is to be put.
    Close,
}
