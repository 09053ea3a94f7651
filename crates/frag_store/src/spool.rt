//! A spool, which keeps a fragment's rows.

ghost use Rattle.std.specs.Prelude.{◌≡◌, ◌+◌, ◌<◌, ◌≤◌, ◌^◌, ◌++◌, [], IfErr, IfOk, OnErr, OnOk, length, map, option_map};
ghost use Rattle.frag_store.specs.Spools.{IsCursor, PutsRows, RefusesScan, ScansPart, ScansRows, count_of, shape_count, spooled_count, spooled_rows};
ghost use Rattle.spill_blocks.specs.Blocks.{OnlyReads, RefusesBlock, RowsHaveOneWidth, shape_at};
ghost use Rattle.spill_blocks.specs.Entries.{spooled};
ghost use Rattle.spill_blocks.specs.declared.form.EntryForm.TheVariants as form;

use med_base::Spill;
use row_pages::Rows;
use spill_blocks::{BlockFault, BlockFile, Entries};
use std::alloc::Global;
use std::marker::Model;

// A block, and how many rows are before it. Behind all blocks it is none.
#[derive(Clone, Copy, Debug)]
struct Cursor {
    block: usize,
    before: u64,
}

/// The rows of a fragment, in a file of blocks. Contracts see it as that file: its rows are those of all blocks.
#[derive(Drop)]
pub struct Spool<F: Spill> {
    file: BlockFile<F>,
    rows: u64,
    // Where the last scan stopped.
    cursor: Cursor,
}

impl<F: Spill> Model for Spool<F> {
    ghost use Rattle.frag_store.specs.Spools.{IsSpool};
    ghost use Rattle.spill_blocks.specs.Blocks.{BlockState};

    ghost Value = { BlockState };

    ghost view = { λ s. s.file };

    ghost invariant = { λ s. IsSpool s.file s.rows s.cursor };
}

// The cursor at the block of the row at a position: forwards from the one that is given, or from the first block on.
fn cursor_at<F: Spill>(file: &BlockFile<F>, cursor: Cursor, position: u64) -> Cursor
    requires cursor { IsCursor file.now.shapes cursor }
    requires few { count_of file.now.shapes < 2 ^ 64 }
    ensures cursor { IsCursor file.now.shapes result }
    ensures low { result.before ≤ position }
    ensures high { position < count_of file.now.shapes → position < result.before + shape_count (shape_at file.now result.block) }
{
    let mut at = cursor;
    if position < at.before {
        at = Cursor {
            block: 0,
            before: 0,
        };
    }
    while let Some(block) = file.block(at.block) {
        let count = u64::from(file.count(block));
        if position - at.before < count {
            return at;
        }
        at.before += count;
        at.block += 1;
    }
    at
}

impl<F: Spill> Spool<F> {
    /// An empty spool over a file of blocks without blocks, which is of its form.
    pub fn new(file: BlockFile<F>) -> Self
        requires formed { file.form ≡ form.Spool }
        requires empty { file.shapes ≡ [] }
        ensures { result ≡ file }
    {
        let block = file.blocks();
        Spool {
            file,
            rows: 0,
            cursor: Cursor { block, before: 0 },
        }
    }

    /// The file of blocks.
    pub fn into_file(self) -> BlockFile<F>
        ensures { result ≡ self }
    {
        self.file
    }

    /// Puts rows behind the others as one block, by one append. No rows write nothing. Want of memory leaves all as it was.
    pub fn append(&mut self, alloc: Global, rows: &Rows) -> Result<(), BlockFault>
        requires few { length rows.now < 2 ^ 32 }
        requires wide { RowsHaveOneWidth rows.now }
        ensures ok { OnOk result (PutsRows self.old rows.now self.new) }
        ensures count { OnOk result (spooled_count self.new ≡ spooled_count self.old + length rows.now) }
        ensures told { OnOk result (spooled_rows self.new ≡ option_map (λ before. before ++ rows.now) (spooled_rows self.old)) }
        ensures some { OnErr result (0 < length rows.now) }
        ensures refused { IfErr result (λ fault. RefusesBlock self.old (map spooled rows.now) fault self.new) }
    {
        if rows.is_empty() {
            return Ok(());
        }
        self.file.put_spooled(alloc, rows)?;
        self.rows += rows.len() as u64;
        Ok(())
    }

    /// How many rows were appended.
    pub fn finish(&self) -> u64
        ensures { result ≡ spooled_count self.now }
    {
        self.rows
    }

    // Reads rows of the block in which the row at a position is, up to another position at most.
    fn scan_block(
        &mut self,
        alloc: Global,
        position: u64,
        stop: u64,
        entries: &mut Entries,
    ) -> Result<(), BlockFault>
        requires inside { position < stop }
        requires within { stop ≤ spooled_count self.old }
        ensures rows { OnOk result (ScansPart self.old position stop entries.old entries.new) }
        ensures refused { IfErr result (λ fault. RefusesScan self.old fault self.new) }
        ensures keeps { OnlyReads self.old self.new }
    {
        self.cursor = cursor_at(&self.file, self.cursor, position);
        let Some(block) = self.file.block(self.cursor.block) else {
            unreachable!();
        };
        let count = u64::from(self.file.count(block));
        let from = (position - self.cursor.before) as u32;
        let room = (stop - position).min(count) as u32;
        self.file.add_rows_of(alloc, block, from, room, entries)
    }

    /// Reads the rows from a position on, `room` of them or all that are left.
    pub fn scan(&mut self, alloc: Global, from: u64, room: u32) -> Result<Rows, BlockFault>
        ensures rows { IfOk result (λ rows. ScansRows self.old from room rows) }
        ensures refused { IfErr result (λ fault. RefusesScan self.old fault self.new) }
        ensures keeps { OnlyReads self.old self.new }
    {
        let stop = from.saturating_add(u64::from(room)).min(self.rows);
        let mut entries = Entries::new(alloc);
        let mut position = from;
        while position < stop {
            self.scan_block(alloc, position, stop, &mut entries)?;
            position = from + entries.len() as u64;
        }
        Ok(entries.into_rows())
    }
}
