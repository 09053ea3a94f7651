//! A set of spill files in memory, some of whose calls fail.

ghost use Rattle.std.specs.Prelude.{◌≡◌, [], IfOk};

use super::spill::{MemSpill, SpillScript};
use crate::bookkeeping::counted_fault;
use crate::outside::{SpillFault, SpillSet};
use med_prelude::Listed;
use std::alloc::{AllocError, Global};

/// A set of spill files in memory.
#[derive(Debug, Drop)]
pub struct MemSpills {
    scripts: Vec<SpillScript>,
    failing: Vec<usize>,
    asked: Listed<(u32, u64)>,
    faults: u64,
}

impl MemSpills {
    /// A set whose files follow these scripts, of which the first of a number counts; a file without one never
    /// fails. `failing` are the numbers, from 0 on, of the calls of the set that fail.
    pub fn new(alloc: Global, scripts: Vec<SpillScript>, failing: Vec<usize>) -> Self
        ensures faults { ⟦<MemSpills as SpillSet>⟧.faults result ≡ 0 }
        ensures asked { ⟦<MemSpills as SpillSet>⟧.asked result ≡ [] }
    {
        MemSpills {
            scripts,
            failing,
            asked: Listed::new(alloc),
            faults: 0,
        }
    }

    /// The numbers and limits that were asked for, in order.
    pub fn asked(&self) -> &[(u32, u64)]
        ensures { result.now ≡ ⟦<MemSpills as SpillSet>⟧.asked self.now }
    {
        self.asked.as_slice()
    }
}

impl SpillSet for MemSpills {
    type F = MemSpill;

    ghost faults = { λ s. s.faults };

    ghost asked = { λ s. s.asked };

    fn make(&mut self, alloc: Global, number: u32, limit: u64) -> Result<MemSpill, SpillFault> {
        let call = self.asked.len();
        self.asked.push((number, limit))?;
        if self.failing.contains(&call) {
            return Err(SpillFault::from(counted_fault(&mut self.faults)));
        }
        let script = script_of(alloc, self.scripts.as_slice(), number)?;
        Ok(MemSpill::new(alloc, limit, script))
    }
}

/// A copy of the script of that file, or one by which nothing fails.
fn script_of(alloc: Global, scripts: &[SpillScript], file: u32) -> Result<SpillScript, AllocError>
    ensures { IfOk result (λ script. script.file ≡ file) }
{
    match scripts.iter().find(|script| script.file == file) {
        Some(script) => script.clone(),
        None => Ok(SpillScript {
            file,
            appends: Vec::new(alloc),
            reads: Vec::new(alloc),
        }),
    }
}
