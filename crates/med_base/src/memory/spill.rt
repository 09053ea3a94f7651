//! A spill file in memory, some of whose calls fail.

ghost use Rattle.std.specs.Prelude.{◌≡◌, []};
ghost use Rattle.med_base.specs.Spills.{IsFreshFile, TellsBytes};

use super::calm::fill_from;
use crate::bookkeeping::{counted_fault, end_within};
use crate::outside::{Spill, SpillFault};
use std::alloc::Global;

/// Which calls of a spill file fail: the numbers of the appends and of the reads, each counted from 0. An
/// append that is over the limit counts, and is answered so.
#[derive(Clone, Debug, Drop)]
pub struct SpillScript {
    pub file: u32,
    pub appends: Vec<usize>,
    pub reads: Vec<usize>,
}

/// A spill file that keeps its content in memory, and follows a script. A call that fails changes nothing.
#[derive(Debug, Drop)]
pub struct MemSpill {
    limit: u64,
    bytes: Vec<u8>,
    script: SpillScript,
    appends: usize,
    reads: usize,
    faults: u64,
}

impl MemSpill {
    /// An empty file of the script's number, which takes at most `limit` bytes.
    pub fn new(alloc: Global, limit: u64, script: SpillScript) -> Self
        ensures fresh { IsFreshFile script.file limit (⟦<MemSpill as Spill>⟧.state result) }
        ensures told { (⟦<MemSpill as Spill>⟧.state result).content ≡ TellsBytes [] }
    {
        MemSpill {
            limit,
            bytes: Vec::new(alloc),
            script,
            appends: 0,
            reads: 0,
            faults: 0,
        }
    }
}

impl Spill for MemSpill {
    ghost state = { λ s. record { number = s.script.file; limit = s.limit; content = TellsBytes s.bytes.items; past_end = []; faults = s.faults } };

    fn append(&mut self, _alloc: Global, bytes: &[u8]) -> Result<u64, SpillFault> {
        let call = self.appends;
        self.appends = call.saturating_add(1);
        let at = self.bytes.len() as u64;
        end_within(at, bytes.len() as u64, self.limit)?;
        if self.script.appends.contains(&call) {
            return Err(SpillFault::from(counted_fault(&mut self.faults)));
        }
        self.bytes.extend_from_slice(bytes)?;
        Ok(at)
    }

    fn read_at(&mut self, at: u64, room: &mut [u8]) -> Result<usize, SpillFault> {
        let call = self.reads;
        self.reads = call.saturating_add(1);
        if self.script.reads.contains(&call) {
            Err(SpillFault::from(counted_fault(&mut self.faults)))
        } else {
            Ok(fill_from(self.bytes.as_slice(), at, room))
        }
    }
}
