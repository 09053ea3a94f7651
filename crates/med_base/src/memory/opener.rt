//! An opener in memory.

ghost use Rattle.std.specs.Prelude.{◌≡◌, ◌≤◌, [], find, length, option_copied, IfOk, Some};
ghost use Rattle.med_base.specs.Sites.{is_at, text_at};

use super::script::Script;
use super::source::MemSource;
use crate::bookkeeping::{counted_fault, note_asked};
use crate::outside::{OpenFault, Opener, Source};
use med_prelude::{Listed, Text};
use std::alloc::{AllocError, Global};

/// The most bytes of a text that can be opened: as many as a source may have left.
pub const TEXT_MOST: usize = 1 << 62;

/// A location with its text, and how a source there behaves.
#[derive(Debug, Drop)]
pub struct Site {
    pub location: Text,
    pub text: Vec<u8>,
    pub script: Script,
}

/// An opener that keeps its texts in memory.
#[derive(Debug, Drop)]
pub struct MemOpener {
    sites: Vec<Site>,
    failing: Vec<usize>,
    asked: Listed<Text>,
    given: Vec<u64>,
    faults: u64,
}

impl MemOpener {
    /// An opener with these sites, of which the first of a location counts. `failing` are the numbers, from 0
    /// on, of the calls that fail.
    pub fn new(alloc: Global, sites: Vec<Site>, failing: Vec<usize>) -> Self
        ensures told { ⟦<MemOpener as Opener>⟧.told result ≡ text_at sites.items }
        ensures faults { ⟦<MemOpener as Opener>⟧.faults result ≡ 0 }
        ensures asked { ⟦<MemOpener as Opener>⟧.asked result ≡ [] }
        ensures given { ⟦<MemOpener as Opener>⟧.given result ≡ [] }
    {
        MemOpener {
            sites,
            failing,
            asked: Listed::new(alloc),
            given: Vec::new(alloc),
            faults: 0,
        }
    }

    /// The locations that were asked for, in order.
    pub fn asked(&self) -> &[Text]
        ensures { result.now ≡ ⟦<MemOpener as Opener>⟧.asked self.now }
    {
        self.asked.as_slice()
    }

    /// The marks of the sources that were given, in order.
    pub fn given(&self) -> &[u64]
        ensures { result.now ≡ ⟦<MemOpener as Opener>⟧.given self.now }
    {
        self.given.as_slice()
    }
}

impl Opener for MemOpener {
    type S = MemSource;

    ghost told = { λ o. text_at o.sites.items };

    ghost faults = { λ o. o.faults };

    ghost asked = { λ o. o.asked };

    ghost given = { λ o. o.given.items };

    fn open_at(&mut self, alloc: Global, location: &str) -> Result<MemSource, OpenFault> {
        let number = self.asked.len();
        note_asked(alloc, &mut self.asked, location)?;
        if self.failing.contains(&number) {
            return Err(counted_fault(&mut self.faults));
        }
        match site_at(self.sites.as_slice(), location) {
            None => Err(counted_fault(&mut self.faults)),
            Some(site) if TEXT_MOST < site.text.len() => Err(counted_fault(&mut self.faults)),
            Some(site) => {
                let mark = self.given.len() as u64;
                let source = opened(alloc, location, site, mark)?;
                self.given.push(mark)?;
                Ok(source)
            }
        }
    }
}

fn site_at<'a>(sites: &'a [Site], location: &str) -> Option<&'a Site>
    ensures { option_copied result ≡ find (is_at location.now) sites.now }
{
    sites.iter().find(|site| site.location.as_str() == location)
}

fn opened(alloc: Global, location: &str, site: &Site, mark: u64) -> Result<MemSource, AllocError>
    ensures mark { IfOk result (λ s. ⟦<MemSource as Source>⟧.mark s ≡ mark) }
    ensures location { IfOk result (λ s. ⟦<MemSource as Source>⟧.location s ≡ location.now) }
    ensures taken { IfOk result (λ s. ⟦<MemSource as Source>⟧.taken s ≡ Some []) }
    ensures whole { IfOk result (λ s. ⟦<MemSource as Source>⟧.whole s ≡ Some site.now.text.items) }
    ensures faults { IfOk result (λ s. ⟦<MemSource as Source>⟧.faults s ≡ 0) }
    ensures waits { IfOk result (λ s. ⟦<MemSource as Source>⟧.waits s ≡ 0) }
    ensures dry { IfOk result (λ s. ⟦<MemSource as Source>⟧.dry s ≡ 0) }
    ensures left { IfOk result (λ s. ⟦<MemSource as Source>⟧.left s ≡ length site.now.text.items) }
{
    let location = Text::from_str(alloc, location)?;
    let text = Vec::from_slice(alloc, site.text.as_slice())?;
    let script = site.script.clone()?;
    Ok(MemSource::new(location, text, script, mark))
}
