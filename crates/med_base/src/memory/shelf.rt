//! A shelf in memory.

ghost use Rattle.std.specs.Prelude.{◌≡◌, ◌≤◌, ◌↔◌, [], find, length, take, option_copied, IfOk, IsTrue};
ghost use Rattle.med_base.specs.Stored.{FitsSource, is_named, text_named};

use super::opener::TEXT_MOST;
use crate::bookkeeping::{counted_fault, note_asked};
use crate::outside::{FETCHED_MOST, FetchFault, Shelf};
use med_prelude::{Listed, Text};
use std::alloc::{AllocError, Global};

/// A text and its name.
#[derive(Debug, Drop)]
pub struct Stored {
    pub name: Text,
    pub bytes: Vec<u8>,
}

/// A shelf that keeps its texts in memory.
#[derive(Debug, Drop)]
pub struct MemShelf {
    texts: Vec<Stored>,
    failing: Vec<usize>,
    asked: Listed<Text>,
    faults: u64,
}

impl MemShelf {
    /// A shelf with these texts, of which the first of a name counts. `failing` are the numbers, from 0 on,
    /// of the calls that fail.
    pub fn new(alloc: Global, texts: Vec<Stored>, failing: Vec<usize>) -> Self
        ensures told { ⟦<MemShelf as Shelf>⟧.told result ≡ text_named texts.items }
        ensures faults { ⟦<MemShelf as Shelf>⟧.faults result ≡ 0 }
        ensures asked { ⟦<MemShelf as Shelf>⟧.asked result ≡ [] }
    {
        MemShelf {
            texts,
            failing,
            asked: Listed::new(alloc),
            faults: 0,
        }
    }

    /// The names that were asked for, in order.
    pub fn asked(&self) -> &[Text]
        ensures { result.now ≡ ⟦<MemShelf as Shelf>⟧.asked self.now }
    {
        self.asked.as_slice()
    }
}

impl Stored {
    /// Whether the text is no longer than what a source can give.
    pub fn fits_source(&self) -> bool
        ensures { IsTrue result ↔ FitsSource self.now }
    {
        self.bytes.len() <= TEXT_MOST
    }
}

impl Shelf for MemShelf {
    ghost told = { λ s. text_named s.texts.items };

    ghost faults = { λ s. s.faults };

    ghost asked = { λ s. s.asked };

    fn fetch(&mut self, alloc: Global, name: &str) -> Result<Vec<u8>, FetchFault> {
        let number = self.asked.len();
        note_asked(alloc, &mut self.asked, name)?;
        if self.failing.contains(&number) {
            return Err(counted_fault(&mut self.faults));
        }
        match stored_at(self.texts.as_slice(), name) {
            None => Err(counted_fault(&mut self.faults)),
            Some(stored) => Ok(first_bytes(alloc, stored.bytes.as_slice(), FETCHED_MOST)?),
        }
    }
}

/// The first entry of that name.
pub fn stored_at<'a>(texts: &'a [Stored], name: &str) -> Option<&'a Stored>
    ensures { option_copied result ≡ find (is_named name.now) texts.now }
{
    texts.iter().find(|stored| stored.name.as_str() == name)
}

#[tactic(auto, using(std::proofs::lemmas::List::take_min))]
/// A copy of the bytes, or of the first `most` of them where there are more.
fn first_bytes(alloc: Global, bytes: &[u8], most: usize) -> Result<Vec<u8>, AllocError>
    ensures short { IfOk result (λ first. length first.items ≤ most) }
    ensures bytes { IfOk result (λ first. first.items ≡ take most bytes.now) }
{
    let (first, _) = bytes.split_at(most.min(bytes.len()));
    Vec::from_slice(alloc, first)
}
