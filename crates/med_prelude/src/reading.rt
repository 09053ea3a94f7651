//! What each reader of a text answers: the value, the one refusal, or that memory ran out.

ghost use Rattle.std.specs.Prelude.{◌≡◌};

use std::alloc::{AllocError, AllocFailed};
use thiserror::Error;

/// Why a reader gave no value: `P` tells where the text is broken. Readers pass want of memory on by `?`.
#[derive(Debug, Drop, Error)]
pub enum ReadFault<P> {
    #[error("the text is refused")]
    Broken(P),
    #[error("out of memory")]
    NoMemory,
}

impl<P> From<AllocError> for ReadFault<P> {
    ghost use Rattle.med_prelude.specs.declared.reading.ReadFault.TheVariants.{NoMemory};

    ghost from_gives = { λ _ fault. fault ≡ NoMemory };

    fn from(_: AllocError) -> ReadFault<P> {
        ReadFault::NoMemory
    }
}

impl<T: Drop, P> From<AllocFailed<T>> for ReadFault<P> {
    ghost use Rattle.med_prelude.specs.declared.reading.ReadFault.TheVariants.{NoMemory};

    ghost from_gives = { λ _ fault. fault ≡ NoMemory };

    fn from(_: AllocFailed<T>) -> ReadFault<P> {
        ReadFault::NoMemory
    }
}
