//! An opener in memory that never fails.

ghost use Rattle.std.specs.Prelude.{◌≡◌, ◌≤◌, [], length, IfOk, unwrap_or};
ghost use Rattle.med_base.specs.Outside.{most_left};
ghost use Rattle.med_base.specs.Stored.{FitSources, text_named, text_or_empty};

use super::CalmSource;
use crate::bookkeeping::note_asked;
use crate::memory::shelf::{Stored, stored_at};
use crate::outside::{OpenFault, Opener};
use med_prelude::{Listed, Text};
use std::alloc::{AllocError, Global};

/// An opener that keeps its texts in memory. A location without a text opens as the empty text.
#[derive(Debug, Drop)]
pub struct CalmOpener {
    texts: Vec<Stored>,
    asked: Listed<Text>,
    given: Vec<u64>,
    ghost short: { FitSources texts.items },
}

impl CalmOpener {
    /// An opener with these texts by their locations, of which the first of a location counts. None may be
    /// longer than what a source can give, which `Stored::fits_source` tests.
    pub fn new(alloc: Global, texts: Vec<Stored>) -> Self
        requires { FitSources texts.items }
        ensures told { ⟦<CalmOpener as Opener>⟧.told result ≡ text_or_empty texts.items }
        ensures asked { ⟦<CalmOpener as Opener>⟧.asked result ≡ [] }
        ensures given { ⟦<CalmOpener as Opener>⟧.given result ≡ [] }
    {
        CalmOpener {
            texts,
            asked: Listed::new(alloc),
            given: Vec::new(alloc),
        }
    }

    /// The locations that were asked for, in order.
    pub fn asked(&self) -> &[Text]
        ensures { result.now ≡ ⟦<CalmOpener as Opener>⟧.asked self.now }
    {
        self.asked.as_slice()
    }
}

impl Opener for CalmOpener {
    type S = CalmSource;

    ghost told = { λ o. text_or_empty o.texts.items };

    ghost faults = { λ _. 0 };

    ghost asked = { λ o. o.asked };

    ghost given = { λ o. o.given.items };

    fn open_at(&mut self, alloc: Global, location: &str) -> Result<CalmSource, OpenFault> {
        note_asked(alloc, &mut self.asked, location)?;
        let mark = self.given.len() as u64;
        let text = text_for(alloc, self.texts.as_slice(), location)?;
        let source = CalmSource::new(Text::from_str(alloc, location)?, text, mark);
        self.given.push(mark)?;
        Ok(source)
    }
}

/// A copy of the text of a location, or the empty text.
fn text_for(alloc: Global, texts: &[Stored], location: &str) -> Result<Vec<u8>, AllocError>
    requires { FitSources texts.now }
    ensures text { IfOk result (λ text. text.items ≡ unwrap_or (text_named texts.now location.now) []) }
    ensures short { IfOk result (λ text. length text.items ≤ most_left) }
{
    match stored_at(texts, location) {
        None => Ok(Vec::new(alloc)),
        Some(stored) => Vec::from_slice(alloc, stored.bytes.as_slice()),
    }
}
