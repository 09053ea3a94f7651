//! A sink in memory.

ghost use Rattle.std.specs.Prelude.{◌≡◌, [], Some};

use crate::bookkeeping::counted_fault;
use crate::outside::{Sink, SinkFault};
use std::alloc::Global;

/// A sink that keeps what is written.
#[derive(Debug, Drop)]
pub struct MemSink {
    bytes: Vec<u8>,
    most: usize,
    failing: Vec<usize>,
    calls: usize,
    faults: u64,
}

impl MemSink {
    /// A sink that takes at most `most` bytes a call. `failing` are the numbers, from 0 on, of the calls that
    /// fail; a call with no bytes isn't counted.
    pub fn new(alloc: Global, most: usize, failing: Vec<usize>) -> Self
        ensures written { ⟦<MemSink as Sink>⟧.written result ≡ Some [] }
        ensures faults { ⟦<MemSink as Sink>⟧.faults result ≡ 0 }
    {
        MemSink {
            bytes: Vec::new(alloc),
            most,
            failing,
            calls: 0,
            faults: 0,
        }
    }

    /// What was written.
    pub fn bytes(&self) -> &[u8]
        ensures { ⟦<MemSink as Sink>⟧.written self.now ≡ Some result.now }
    {
        self.bytes.as_slice()
    }
}

impl Sink for MemSink {
    ghost written = { λ s. Some s.bytes.items };

    ghost faults = { λ s. s.faults };

    fn write(&mut self, alloc: Global, piece: &[u8]) -> Result<usize, SinkFault> {
        if piece.is_empty() {
            return Ok(0);
        }
        let number = self.calls;
        self.calls = number.saturating_add(1);
        let count = piece.len().min(self.most);
        if count == 0 || self.failing.contains(&number) {
            return Err(counted_fault(&mut self.faults));
        }
        self.bytes.extend_from_slice(&piece[..count])?;
        Ok(count)
    }
}
