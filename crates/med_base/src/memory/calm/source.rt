//! A source in memory that gives all that the room takes.

ghost use Rattle.std.specs.Prelude.{◌≡◌, ◌-◌, ◌≤◌, [], length, take, Some};

use crate::memory::source::copy_from;
use crate::outside::{Pull, Source};
use med_prelude::Text;

/// A source that keeps its text in memory. It never fails and never answers `NotYet`.
#[derive(Debug, Drop)]
pub struct CalmSource {
    location: Text,
    text: Vec<u8>,
    /// The offset of the next byte.
    at: usize,
    mark: u64,
    ghost within: { at ≤ length text.items },
}

impl CalmSource {
    /// A source at the start of its text. `mark` is the number of the opening that gives it.
    pub fn new(location: Text, text: Vec<u8>, mark: u64) -> Self
        ensures mark { ⟦<CalmSource as Source>⟧.mark result ≡ mark }
        ensures location { ⟦<CalmSource as Source>⟧.location result ≡ location }
        ensures taken { ⟦<CalmSource as Source>⟧.taken result ≡ Some [] }
        ensures whole { ⟦<CalmSource as Source>⟧.whole result ≡ Some text.items }
        ensures left { ⟦<CalmSource as Source>⟧.left result ≡ length text.items }
    {
        CalmSource {
            location,
            text,
            at: 0,
            mark,
        }
    }
}

impl Source for CalmSource {
    type Mark = u64;

    ghost mark = { λ s. s.mark };

    ghost location = { λ s. s.location };

    ghost taken = { λ s. Some (take s.at s.text.items) };

    ghost whole = { λ s. Some s.text.items };

    ghost faults = { λ _. 0 };

    ghost waits = { λ _. 0 };

    ghost dry = { λ _. 0 };

    ghost left = { λ s. length s.text.items - s.at };

    fn pull(&mut self, room: &mut [u8]) -> Pull {
        if self.at == self.text.len() {
            return Pull::End;
        }
        let count = copy_from(self.text.as_slice(), self.at, usize::MAX, room);
        self.at += count;
        Pull::Bytes(count)
    }
}
