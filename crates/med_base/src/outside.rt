//! What lies outside the mediator, as traits whose ghost members say what each object means.
//!
//! Bytes are told by objects in memory and not by real ones: where a meaning is `None`, a clause on it
//! claims nothing. A failure is answered only where the object's count of faults rose in that call.

ghost use Rattle.std.specs.Prelude.{◌≡◌};
ghost use Rattle.med_base.specs.declared.outside.OutsideFault.TheVariants.{NoMemory};

mod clock;
mod gate;
mod opener;
mod shelf;
mod sink;
mod source;
mod spill;

pub use clock::Clock;
pub use gate::Gate;
pub use opener::Opener;
pub use shelf::{FETCHED_MOST, Shelf};
pub use sink::Sink;
pub use source::{Pull, Source};
pub use spill::{Files, Spill, SpillFault, SpillSet};
use std::alloc::{AllocError, AllocFailed};
use thiserror::Error;

/// Why a call of an outside object gave nothing.
#[derive(Clone, Copy, Debug, PartialEq, Eq, Error)]
pub enum OutsideFault {
    #[error("the outside failed")]
    Failed,
    #[error("out of memory")]
    NoMemory,
}

pub type FetchFault = OutsideFault;

pub type OpenFault = OutsideFault;

pub type SinkFault = OutsideFault;

impl From<AllocError> for OutsideFault {
    ghost from_gives = { λ _ fault. fault ≡ NoMemory };

    fn from(_error: AllocError) -> Self {
        OutsideFault::NoMemory
    }
}

impl<T: Drop> From<AllocFailed<T>> for OutsideFault {
    ghost from_gives = { λ _ fault. fault ≡ NoMemory };

    fn from(_error: AllocFailed<T>) -> Self {
        OutsideFault::NoMemory
    }
}
