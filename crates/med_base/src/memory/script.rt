//! What a source in memory does at each pull.

ghost use Rattle.std.specs.Prelude.{◌≡◌, [], slice_get, unwrap_or};

use std::alloc::Global;

/// What a source does at one pull.
#[derive(Clone, Copy, Debug, PartialEq, Eq)]
pub enum Turn {
    /// It gives at most so many bytes, and no fewer than one where it has any left and the room takes one.
    Give(usize),
    NotYet,
    Failed,
}

/// The turns of a source: its first pulls take those of the list, and every later one takes `then`.
#[derive(Clone, Debug, Drop)]
pub struct Script {
    pub turns: Vec<Turn>,
    pub then: Turn,
}

impl Script {
    /// Each pull gives all that the room takes.
    pub fn calm(alloc: Global) -> Self
        ensures turns { result.turns.items ≡ [] }
        ensures then { result.then ≡ Turn.Give usize.MAX }
    {
        Script {
            turns: Vec::new(alloc),
            then: Turn::Give(usize::MAX),
        }
    }

    /// The turn of the pull of that number, counted from 0.
    pub fn turn(&self, number: usize) -> Turn
        ensures { result ≡ unwrap_or (slice_get self.now.turns.items number) self.now.then }
    {
        self.turns.get(number).copied().unwrap_or(self.then)
    }
}
