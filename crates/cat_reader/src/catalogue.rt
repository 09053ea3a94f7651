//! What a catalogue is, and how its text is refused.

ghost use Rattle.cat_reader.specs.Catalogue.{greatest_told};
ghost use Rattle.std.specs.Prelude.{◌≡◌, min};

use crate::locations::Where;
use med_prelude::{Listed, Text};
use std::alloc::AllocError;
use text_reading::Broken;
use thiserror::Error;
use tuple_core::{Columns, Words};

/// A mediated relation: the union of its groups. A group has mirrors, which stand for one source.
#[derive(Debug, Drop)]
pub struct Relation {
    pub name: Text,
    pub columns: Columns,
    /// The locations of each group's mirrors.
    pub groups: Listed<Words>,
    /// An estimate of how many rows there are: 1,000 where none is given.
    pub rows: i64,
}

/// The relations of a catalogue, in the order of its text.
pub type Catalogue = Listed<Relation>;

/// Why a text gave no catalogue.
#[derive(Clone, Copy, Debug, PartialEq, Eq, Error)]
pub enum CatalogueFault {
    /// `why` is the number of the first check that is broken, `relation` the index of the relation and
    /// `item` that of its column or group; each is 0 where the fault is of none, and the greatest number
    /// stands for all greater ones.
    #[error("the catalogue is refused: check {why}, relation {relation}, item {item}")]
    Refused { why: u8, relation: u32, item: u32 },
    #[error("out of memory")]
    NoMemory,
}

impl From<Broken<Where>> for CatalogueFault {
    ghost use Rattle.cat_reader.specs.Catalogue.{fault_of};

    ghost from_gives = { λ broken fault. fault ≡ fault_of broken };

    fn from(broken: Broken<Where>) -> CatalogueFault {
        CatalogueFault::Refused {
            why: broken.why,
            relation: capped(broken.at.relation),
            item: capped(broken.at.item),
        }
    }
}

/// The number that is told of an index.
fn capped(index: usize) -> u32
    ensures { result ≡ min index greatest_told }
{
    index.min(u32::MAX as usize) as u32
}

impl From<AllocError> for CatalogueFault {
    ghost use Rattle.cat_reader.specs.declared.catalogue.CatalogueFault.TheVariants.{NoMemory};

    ghost from_gives = { λ _ fault. fault ≡ NoMemory };

    fn from(_: AllocError) -> CatalogueFault {
        CatalogueFault::NoMemory
    }
}
