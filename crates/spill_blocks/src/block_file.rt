//! A spill file of blocks.

ghost use Rattle.std.specs.Prelude.{◌≡◌, ◌<◌, ◌≤◌, ◌^◌, ◌++◌, [], ◌∷◌, IfErr, IfOk, IfSome, MatchOption, OnErr, OnOk, All, length, map, option_map, vec_capacity, vec_len};
ghost use Rattle.med_base.specs.Spills.{file_content};
ghost use Rattle.spill_blocks.specs.Blocks.{FitsForm, GivesMore, GivesRows, HaveOneWidth, OnlyReads, PutsBlock, RefusesBlock, RefusesRows, RowsHaveOneWidth, TellsShapes, shape_at};
ghost use Rattle.spill_blocks.specs.Entries.{spooled};
ghost use Rattle.spill_blocks.specs.Listings.{listed};

use crate::encoding::block_bytes;
use crate::entries::Entries;
use crate::fault::BlockFault;
use crate::form::EntryForm;
use crate::listing::Listing;
use crate::seeking::{Wanted, place_before, read_on};
use crate::table::{Block, Mark, Place};
use crate::window::{Windowed, block_fault};
use med_base::Spill;
use row_pages::Rows;
use std::alloc::Global;
use std::marker::Model;

/// The number of a block, from 0 on, in the file that made it. It means nothing in another file.
#[derive(Clone, Copy, Debug)]
pub struct BlockId {
    index: u32,
}

impl Model for BlockId {
    ghost use Rattle.std.specs.Prelude.{ℕ};

    ghost Value = { ℕ };

    ghost view = { λ b. b.index };

    ghost inverse = { λ n. record { index = n } };
}

/// A spill file of blocks. Contracts see its blocks in the order in which they were put, with their entries where the file
/// tells its content.
///
/// A block takes 16 bytes of memory, and twice as many where the table of them has just grown. Beside that a file holds the
/// piece of it that was read last: 64 KiB, or more after a longer entry.
#[derive(Drop)]
pub struct BlockFile<F: Spill> {
    file: Windowed<F>,
    number: u32,
    form: EntryForm,
    blocks: Vec<Block>,
    mark: Option<Mark>,
}

impl<F: Spill> Model for BlockFile<F> {
    ghost use Rattle.std.specs.Prelude.{map};
    ghost use Rattle.med_base.specs.Spills.{file_content};
    ghost use Rattle.spill_blocks.specs.Blocks.{BlockState};
    ghost use Rattle.spill_blocks.specs.Tables.{IsKept, shape_kept, told_entries};

    ghost Value = { BlockState };

    ghost view = { λ f. record { number = f.number; form = f.form; file = f.file.file; shapes = map shape_kept f.blocks.items; told = told_entries f.form (file_content f.file.file) f.blocks.items } };

    ghost invariant = { λ f. IsKept f.form (file_content f.file.file) f.file.end f.blocks.items f.mark };
}

// Appends a block for which there is room.
fn keep(block: Block, into: &mut Vec<Block>)
    requires { vec_len into.old < vec_capacity into.old }
    ensures { into.new.items ≡ into.old.items ++ block ∷ [] }
{
    match into.push(block) {
        Ok(()) => {}
        Err(_) => unreachable!(),
    }
}

// The place of the mark, where it is in that block.
fn place_in(mark: Option<Mark>, block: u32) -> Option<Place>
    ensures { IfSome result (λ place. mark ≡ Some (record { block = block; place = place })) }
{
    match mark {
        Some(mark) if mark.block == block => Some(mark.place),
        _ => None,
    }
}

impl<F: Spill> BlockFile<F> {
    /// A file without blocks over a spill file, which its user calls by a number.
    pub fn new(alloc: Global, file: F, number: u32, form: EntryForm) -> Self
        requires { (F.state file).limit < 2 ^ 64 }
        ensures { result ≡ record { number = number; form = form; file = F.state file; shapes = []; told = option_map (λ content. []) (file_content (F.state file)) } }
    {
        BlockFile {
            file: Windowed::new(alloc, file),
            number,
            form,
            blocks: Vec::new(alloc),
            mark: None,
        }
    }

    /// The spill file.
    pub fn into_file(self) -> F
        ensures { F.state result ≡ self.file }
    {
        self.file.into_file()
    }

    /// The number by which its user calls it.
    pub fn number(&self) -> u32
        ensures { result ≡ self.now.number }
    {
        self.number
    }

    /// How many blocks were put.
    pub fn blocks(&self) -> usize
        ensures count { result ≡ length self.now.shapes }
        ensures told { TellsShapes self.now }
    {
        self.blocks.len()
    }

    /// The block that was put as the one of that index.
    pub fn block(&self, index: usize) -> Option<BlockId>
        ensures { MatchOption result (length self.now.shapes ≤ index) (λ block. (block ≡ index) × (index < length self.now.shapes)) }
    {
        if index < self.blocks.len() {
            Some(BlockId {
                index: index as u32,
            })
        } else {
            None
        }
    }

    /// How many entries were put into a block.
    pub fn count(&self, block: BlockId) -> u32
        requires { block < length self.now.shapes }
        ensures { result ≡ (shape_at self.now block).count }
    {
        self.blocks[block.index as usize].count
    }

    fn put(&mut self, alloc: Global, listing: Listing<'_>) -> Result<BlockId, BlockFault>
        requires some { 0 < length (listed listing) }
        requires few { length (listed listing) < 2 ^ 32 }
        requires wide { HaveOneWidth (listed listing) }
        requires formed { All (FitsForm self.old.form) (listed listing) }
        ensures ok { IfOk result (λ block. PutsBlock self.old (listed listing.entry) block self.new) }
        ensures refused { IfErr result (λ fault. RefusesBlock self.old (listed listing.entry) fault self.new) }
    {
        let index = self.blocks.len();
        if index > u32::MAX as usize {
            return Err(BlockFault::NoMemory);
        }
        let bytes = block_bytes(alloc, self.form, listing)?;
        let (count, width) = (listing.len() as u32, listing.width());
        self.blocks.reserve(1)?;
        match self.file.append(alloc, bytes.as_slice()) {
            Ok(start) => {
                let block = Block {
                    start,
                    count,
                    width,
                };
                keep(block, &mut self.blocks);
                Ok(BlockId {
                    index: index as u32,
                })
            }
            Err(fault) => Err(block_fault(fault)),
        }
    }

    /// Puts the entries behind the others as one block, by one append of its bytes. All memory is taken before: want of it,
    /// or of a number for the block past 2^32, leaves file and blocks as they were.
    pub fn put_rows(&mut self, alloc: Global, entries: &Entries) -> Result<BlockId, BlockFault>
        requires some { 0 < length entries.now }
        requires few { length entries.now < 2 ^ 32 }
        requires wide { HaveOneWidth entries.now }
        requires formed { All (FitsForm self.old.form) entries.now }
        ensures ok { IfOk result (λ block. PutsBlock self.old entries.now block self.new) }
        ensures refused { IfErr result (λ fault. RefusesBlock self.old entries.now fault self.new) }
    {
        self.put(alloc, Listing::Entries(entries))
    }

    /// Puts rows without numbers, as `put_rows` does.
    pub fn put_spooled(&mut self, alloc: Global, rows: &Rows) -> Result<BlockId, BlockFault>
        requires some { 0 < length rows.now }
        requires few { length rows.now < 2 ^ 32 }
        requires wide { RowsHaveOneWidth rows.now }
        ensures ok { IfOk result (λ block. PutsBlock self.old (map spooled rows.now) block self.new) }
        ensures refused { IfErr result (λ fault. RefusesBlock self.old (map spooled rows.now) fault self.new) }
    {
        self.put(alloc, Listing::Rows(rows))
    }

    /// Reads the entries of a block from a position on, `room` of them or all that are left. A block that is read on where
    /// reading stopped last costs one pass over it.
    pub fn rows_of(
        &mut self,
        alloc: Global,
        block: BlockId,
        from: u32,
        room: u32,
    ) -> Result<Entries, BlockFault>
        requires { block < length self.old.shapes }
        ensures rows { IfOk result (λ entries. GivesRows self.old block from room entries) }
        ensures refused { IfErr result (λ fault. RefusesRows self.old block fault self.new) }
        ensures keeps { OnlyReads self.old self.new }
    {
        let mut entries = Entries::new(alloc);
        self.add_rows_of(alloc, block, from, room, &mut entries)?;
        Ok(entries)
    }

    /// Reads entries as `rows_of` does, and puts them behind those that are there; where it answers an error, some of them
    /// may have come.
    pub fn add_rows_of(
        &mut self,
        alloc: Global,
        block: BlockId,
        from: u32,
        room: u32,
        entries: &mut Entries,
    ) -> Result<(), BlockFault>
        requires { block < length self.old.shapes }
        ensures rows { OnOk result (GivesMore self.old block from room entries.old entries.new) }
        ensures refused { IfErr result (λ fault. RefusesRows self.old block fault self.new) }
        ensures keeps { OnlyReads self.old self.new }
    {
        let index = block.index;
        let kept = self.blocks[index as usize];
        let stop = from.saturating_add(room).min(kept.count);
        if stop <= from {
            return Ok(());
        }
        let stopped = place_in(self.mark, index);
        let mut place = place_before(&mut self.file, kept, stopped, from)?;
        let wanted = Wanted {
            form: self.form,
            width: kept.width,
            count: kept.count,
            from,
            stop,
        };
        let read = read_on(alloc, &mut self.file, wanted, &mut place, entries);
        self.mark = Some(Mark {
            block: index,
            place,
        });
        read?;
        Ok(())
    }
}
