//! A source in memory.

ghost use Rattle.std.specs.Prelude.{◌≡◌, ◌+◌, ◌-◌, ◌<◌, ◌≤◌, max, [], ◌++◌, length, take, drop, Some};

use super::script::{Script, Turn};
use crate::outside::{Pull, Source};
use med_prelude::{Text, raise};

/// A source that keeps its text in memory, and follows a script.
#[derive(Debug, Drop)]
pub struct MemSource {
    location: Text,
    text: Vec<u8>,
    /// The offset of the next byte.
    at: usize,
    script: Script,
    pulls: usize,
    faults: u64,
    waits: u64,
    dry: u64,
    mark: u64,
    ghost within: { at ≤ length text.items },
}

impl MemSource {
    /// A source at the start of its text. `mark` is the number of the opening that gives it.
    pub fn new(location: Text, text: Vec<u8>, script: Script, mark: u64) -> Self
        ensures mark { ⟦<MemSource as Source>⟧.mark result ≡ mark }
        ensures location { ⟦<MemSource as Source>⟧.location result ≡ location }
        ensures taken { ⟦<MemSource as Source>⟧.taken result ≡ Some [] }
        ensures whole { ⟦<MemSource as Source>⟧.whole result ≡ Some text.items }
        ensures faults { ⟦<MemSource as Source>⟧.faults result ≡ 0 }
        ensures waits { ⟦<MemSource as Source>⟧.waits result ≡ 0 }
        ensures dry { ⟦<MemSource as Source>⟧.dry result ≡ 0 }
        ensures left { ⟦<MemSource as Source>⟧.left result ≡ length text.items }
    {
        MemSource {
            location,
            text,
            at: 0,
            script,
            pulls: 0,
            faults: 0,
            waits: 0,
            dry: 0,
            mark,
        }
    }
}

impl Source for MemSource {
    type Mark = u64;

    ghost mark = { λ s. s.mark };

    ghost location = { λ s. s.location };

    ghost taken = { λ s. Some (take s.at s.text.items) };

    ghost whole = { λ s. Some s.text.items };

    ghost faults = { λ s. s.faults };

    ghost waits = { λ s. s.waits };

    ghost dry = { λ s. s.dry };

    ghost left = { λ s. length s.text.items - s.at };

    fn pull(&mut self, room: &mut [u8]) -> Pull {
        let turn = self.script.turn(self.pulls);
        self.pulls = self.pulls.saturating_add(1);
        match turn {
            Turn::Give(most) => {
                self.dry = 0;
                if self.at == self.text.len() {
                    return Pull::End;
                }
                let count = copy_from(self.text.as_slice(), self.at, most, room);
                self.at += count;
                Pull::Bytes(count)
            }
            Turn::NotYet => {
                self.waits = raise(self.waits);
                self.dry = raise(self.dry);
                Pull::NotYet
            }
            Turn::Failed => {
                self.faults = raise(self.faults);
                self.dry = 0;
                Pull::Failed
            }
        }
    }
}

/// Copies bytes of the text from an offset on to the start of the room, and answers how many: at most `most`,
/// but one at least where there are any and the room isn't empty.
pub fn copy_from(text: &[u8], at: usize, most: usize, room: &mut [u8]) -> usize
    requires { at ≤ length text.now }
    ensures fits { result ≤ length room.old }
    ensures within { at + result ≤ length text.now }
    ensures bytes { take (at + result) text.now ≡ take at text.now ++ take result room.new }
    ensures most { result ≤ max most 1 }
    ensures some { at < length text.now → 0 < length room.old → 0 < result }
{
    let (_, rest) = text.split_at(at);
    let count = rest.len().min(room.len()).min(most.max(1));
    room[..count].copy_from_slice(&rest[..count]);
    count
}
