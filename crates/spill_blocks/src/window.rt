//! A spill file with the piece of it that was read last, so that a file that is read in order is read once, by large pieces.

ghost use Rattle.std.specs.Prelude.{◌≡◌, ◌+◌, ◌<◌, ◌≤◌, ◌^◌, [], IfErr, IfOk, OnErr, OnOk, length};
ghost use Rattle.std.specs.Bool.{MatchBool};
ghost use Rattle.med_base.specs.Spills.{AnswersAppend, file_length};
ghost use Rattle.spill_blocks.specs.Windows.{FailsToRead, HoldsAll, HoldsMore, IsHeld, KeepsFile, block_fault};

use crate::fault::BlockFault;
use med_base::{Spill, SpillFault};
use std::alloc::Global;
use std::marker::Model;

// What is read at once, or more where an entry is longer.
const LEAST_PIECE: usize = 65_536;

/// A spill file that is written at its end, and of which a piece is held.
#[derive(Drop)]
pub struct Windowed<F: Spill> {
    file: F,
    // Where what was appended ends: behind it a failed append may have left anything.
    end: u64,
    start: u64,
    piece: Vec<u8>,
}

impl<F: Spill> Model for Windowed<F> {
    ghost use Rattle.spill_blocks.specs.Windows.{IsWindow, Window};

    ghost Value = { Window };

    ghost view = { λ w. record { file = F.state w.file; end = w.end; start = w.start; piece = w.piece.items } };

    ghost invariant = { λ w. IsWindow (record { file = F.state w.file; end = w.end; start = w.start; piece = w.piece.items }) };
}

/// The fault of a file of blocks for that of the spill file under it.
pub fn block_fault(fault: SpillFault) -> BlockFault
    ensures { result ≡ block_fault fault }
{
    match fault {
        SpillFault::Failed => BlockFault::SpillFault,
        SpillFault::Full { need, limit } => BlockFault::SpillFull { need, limit },
        SpillFault::NoMemory => BlockFault::NoMemory,
    }
}

impl<F: Spill> Windowed<F> {
    pub fn new(alloc: Global, file: F) -> Self
        requires { (F.state file).limit < 2 ^ 64 }
        ensures { result ≡ record { file = F.state file; end = 0; start = 0; piece = [] } }
    {
        Windowed {
            file,
            end: 0,
            start: 0,
            piece: Vec::new(alloc),
        }
    }

    pub fn into_file(self) -> F
        ensures { F.state result ≡ self.file }
    {
        self.file
    }

    /// Appends the bytes to the file. The piece stays.
    pub fn append(&mut self, alloc: Global, bytes: &[u8]) -> Result<u64, SpillFault>
        ensures appends { AnswersAppend self.old.file bytes.now result self.new.file }
        ensures end { IfOk result (λ at. self.new.end ≡ at + length bytes.now) }
        ensures within { self.old.end ≤ file_length self.old.file }
        ensures grows { self.old.end ≤ self.new.end }
        ensures reached { self.new.end ≤ file_length self.new.file }
        ensures far { self.new.end < 2 ^ 64 }
        ensures err { OnErr result (self.new.end ≡ self.old.end) }
    {
        match self.file.append(alloc, bytes) {
            Ok(at) => {
                self.end = at + bytes.len() as u64;
                Ok(at)
            }
            Err(fault) => Err(fault),
        }
    }

    /// What is held of the file from an offset on, which may be nothing.
    pub fn held(&self, at: u64) -> &[u8]
        ensures { IsHeld self.now at result.now }
    {
        if at < self.start {
            return &[];
        }
        let skipped = ((at - self.start) as usize).min(self.piece.len());
        self.piece.as_slice().split_at(skipped).1
    }

    // Reads a piece of so many bytes.
    fn read(&mut self, at: u64, size: usize) -> Result<(), BlockFault>
        requires { at + size ≤ self.old.end }
        ensures keeps { KeepsFile self.old self.new }
        ensures start { OnOk result (self.new.start ≡ at) }
        ensures many { OnOk result (length self.new.piece ≡ size) }
        ensures fails { IfErr result (λ fault. FailsToRead fault self.old.file self.new.file) }
    {
        self.piece.resize(size, 0)?;
        match self.file.read_at(at, self.piece.as_mut_slice()) {
            Ok(count) => {
                self.start = at;
                self.piece.truncate(count);
                Ok(())
            }
            Err(fault) => {
                self.piece.clear();
                Err(block_fault(fault))
            }
        }
    }

    /// Reads more of the file from an offset on than is held of it, and tells whether there was more before its end.
    pub fn load(&mut self, at: u64) -> Result<bool, BlockFault>
        requires { at ≤ self.old.end }
        ensures keeps { KeepsFile self.old self.new }
        ensures more { IfOk result (λ more. MatchBool more (HoldsMore self.old at self.new) (HoldsAll self.old at self.new)) }
        ensures fails { IfErr result (λ fault. FailsToRead fault self.old.file self.new.file) }
    {
        let held = self.held(at).len();
        let left = (self.end - at) as usize;
        if held >= left {
            return Ok(false);
        }
        let size = held.saturating_mul(2).max(LEAST_PIECE).min(left);
        self.read(at, size)?;
        Ok(true)
    }
}
