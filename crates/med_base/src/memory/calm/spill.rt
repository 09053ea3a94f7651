//! Spill files in memory that never fail.

ghost use Rattle.std.specs.Prelude.{◌≡◌, ◌≤◌, [], length};
ghost use Rattle.med_base.specs.Spills.{FillsRoom, IsFreshFile, TellsBytes};

use crate::bookkeeping::end_within;
use crate::outside::{Spill, SpillFault, SpillSet};
use med_prelude::Listed;
use std::alloc::Global;

/// A spill file that keeps its content in memory, and never fails.
#[derive(Debug, Drop)]
pub struct CalmSpill {
    number: u32,
    limit: u64,
    bytes: Vec<u8>,
}

impl CalmSpill {
    /// An empty file of that number, which takes at most `limit` bytes.
    pub fn new(alloc: Global, number: u32, limit: u64) -> Self
        ensures fresh { IsFreshFile number limit (⟦<CalmSpill as Spill>⟧.state result) }
        ensures told { (⟦<CalmSpill as Spill>⟧.state result).content ≡ TellsBytes [] }
    {
        CalmSpill {
            number,
            limit,
            bytes: Vec::new(alloc),
        }
    }
}

impl Spill for CalmSpill {
    ghost state = { λ s. record { number = s.number; limit = s.limit; content = TellsBytes s.bytes.items; past_end = []; faults = 0 } };

    fn append(&mut self, _alloc: Global, bytes: &[u8]) -> Result<u64, SpillFault> {
        let at = self.bytes.len() as u64;
        end_within(at, bytes.len() as u64, self.limit)?;
        self.bytes.extend_from_slice(bytes)?;
        Ok(at)
    }

    fn read_at(&mut self, at: u64, room: &mut [u8]) -> Result<usize, SpillFault> {
        Ok(fill_from(self.bytes.as_slice(), at, room))
    }
}

/// A set of spill files in memory that never fails.
#[derive(Debug, Drop)]
pub struct CalmSpills {
    asked: Listed<(u32, u64)>,
}

impl CalmSpills {
    /// A set that made nothing yet.
    pub fn new(alloc: Global) -> Self
        ensures { ⟦<CalmSpills as SpillSet>⟧.asked result ≡ [] }
    {
        CalmSpills {
            asked: Listed::new(alloc),
        }
    }

    /// The numbers and limits that were asked for, in order.
    pub fn asked(&self) -> &[(u32, u64)]
        ensures { result.now ≡ ⟦<CalmSpills as SpillSet>⟧.asked self.now }
    {
        self.asked.as_slice()
    }
}

impl SpillSet for CalmSpills {
    type F = CalmSpill;

    ghost faults = { λ _. 0 };

    ghost asked = { λ s. s.asked };

    fn make(&mut self, alloc: Global, number: u32, limit: u64) -> Result<CalmSpill, SpillFault> {
        self.asked.push((number, limit))?;
        Ok(CalmSpill::new(alloc, number, limit))
    }
}

/// Puts the bytes of the text from an offset on into the room, as far as either goes, and answers how many.
pub fn fill_from(text: &[u8], at: u64, room: &mut [u8]) -> usize
    ensures fits { result ≤ length room.new }
    ensures fills { FillsRoom text.now at result room.new }
{
    if text.len() as u64 <= at {
        return 0;
    }
    let (_, rest) = text.split_at(at as usize);
    let count = rest.len().min(room.len());
    room[..count].copy_from_slice(&rest[..count]);
    count
}
