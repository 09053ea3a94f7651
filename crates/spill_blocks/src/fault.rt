//! Why a call of a file of blocks gave nothing.

ghost use Rattle.std.specs.Prelude.{◌≡◌};
ghost use Rattle.spill_blocks.specs.declared.fault.BlockFault.TheVariants.{NoMemory};

use std::alloc::{AllocError, AllocFailed};
use thiserror::Error;

/// Why a block wasn't put, or its entries weren't read.
#[derive(Clone, Copy, Debug, PartialEq, Eq, Error)]
pub enum BlockFault {
    /// The spill file failed in an append or a read.
    #[error("the spill file failed")]
    SpillFault,
    /// The block, of so many bytes, would pass the file's limit.
    #[error("the spill file has no room for {need} bytes more within its limit of {limit}")]
    SpillFull { need: u64, limit: u64 },
    /// The block was put with so many entries as were kept, and its bytes don't have so many now.
    #[error("a block of {kept} entries has {found} now")]
    Differs { kept: u64, found: u64 },
    #[error("out of memory")]
    NoMemory,
}

impl From<AllocError> for BlockFault {
    ghost from_gives = { λ _ fault. fault ≡ NoMemory };

    fn from(_error: AllocError) -> Self {
        BlockFault::NoMemory
    }
}

impl<T: Drop> From<AllocFailed<T>> for BlockFault {
    ghost from_gives = { λ _ fault. fault ≡ NoMemory };

    fn from(_error: AllocFailed<T>) -> Self {
        BlockFault::NoMemory
    }
}
