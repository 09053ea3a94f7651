//! What no clause says: that each call gives an answer, a block's bytes by hand, a file that lies, and how often it is read.

ghost use Rattle.std.specs.Prelude.{◌≡◌, ◌<◌, [], IfOk, length};
ghost use Rattle.med_base.specs.Spills.{TellsLength, file_length};
ghost use Rattle.spill_blocks.specs.declared.form.EntryForm.TheVariants as form;
ghost use Rattle.tuple_core.specs.Values.{FitsValue};

use crate::{BlockFault, BlockFile, BlockId, Entries, EntryForm, have_one_width};
use med_base::{CalmSpill, MemSpill, Spill, SpillFault, SpillScript};
use row_pages::Rows;
use std::alloc::Global;
use std::test::Fail;
use tuple_core::{Kind, Row, Value, parse_value};

// Whole numbers stand for themselves, and every other field is a text.
fn value_of(alloc: Global, field: &str) -> Result<Value, Fail>
    ensures { IfOk result FitsValue }
{
    match parse_value(alloc, Kind::Int, field.as_bytes())? {
        Some(value) => Ok(value),
        None => Ok(parse_value(alloc, Kind::Text, field.as_bytes())?.ok_or("no value")?),
    }
}

// The row whose fields stand between bars.
fn row_of(alloc: Global, line: &str) -> Result<Row, Fail> {
    let mut values = Vec::new(alloc);
    for field in line.split('|') {
        if values.len() == Row::MOST_VALUES {
            return Err(Fail::from("too many values"));
        }
        values.push(value_of(alloc, field)?)?;
    }
    Ok(Row::new(values))
}

// Entries of a number and a text, whose lengths go up and down: each 300 of them have 300 different ones.
fn entries_of(alloc: Global, length: u64) -> Result<Entries, Fail> {
    let mut entries = Entries::new(alloc);
    for number in 0..length {
        let mut line = format!(in alloc; "{number}|")?;
        for _ in 0..number.wrapping_mul(7_919) % 300 {
            line.push_str("abc")?;
        }
        let row = row_of(alloc, line.as_str())?;
        entries.push_row(alloc, number, number.wrapping_mul(3), &row)?;
    }
    Ok(entries)
}

// Puts the entries as a block of a join's file.
fn put<F: Spill>(
    alloc: Global,
    file: &mut BlockFile<F>,
    entries: &Entries,
) -> Result<Result<BlockId, BlockFault>, Fail>
    requires { file.old.form ≡ form.Join }
    ensures form { file.new.form ≡ form.Join }
    ensures block { IfOk result (λ answer. IfOk answer (λ block. block < length file.new.shapes)) }
{
    if entries.is_empty() || entries.len() > 100_000 || !entries.have_one_width() {
        return Err(Fail::from("no block"));
    }
    Ok(file.put_rows(alloc, entries))
}

// How many entries of the read ones are those from a position on.
fn same_entries(read: &Entries, from: usize, whole: &Entries) -> usize {
    let mut same = 0usize;
    for index in 0..read.len() {
        if let (Some(x), Some(y)) = (read.get(index), whole.get(from.saturating_add(index))) {
            if x.a == y.a && x.d == y.d && x.row == y.row {
                same = same.saturating_add(1);
            }
        }
    }
    same
}

/// A spill file that tells no content, counts how often it was read, and gives one byte in place of those from an offset
/// on up to another.
#[derive(Drop)]
struct LyingSpill {
    inner: CalmSpill,
    start: u64,
    end: u64,
    byte: u8,
    reads: u32,
}

impl Spill for LyingSpill {
    ghost state = { λ s. record { number = (⟦<CalmSpill as Spill>⟧.state s.inner).number; limit = (⟦<CalmSpill as Spill>⟧.state s.inner).limit; content = TellsLength (file_length (⟦<CalmSpill as Spill>⟧.state s.inner)); past_end = []; faults = 0 } };

    fn append(&mut self, alloc: Global, bytes: &[u8]) -> Result<u64, SpillFault> {
        self.inner.append(alloc, bytes)
    }

    fn read_at(&mut self, at: u64, room: &mut [u8]) -> Result<usize, SpillFault> {
        self.reads = self.reads.saturating_add(1);
        let count = self.inner.read_at(at, room)?;
        for index in 0..room.len() {
            let offset = at.saturating_add(index as u64);
            if self.start <= offset && offset < self.end {
                room[index] = self.byte;
            }
        }
        Ok(count)
    }
}

fn lying(alloc: Global, start: u64, end: u64, byte: u8) -> LyingSpill
    ensures { (⟦<LyingSpill as Spill>⟧.state result).limit ≡ 1000000 }
{
    LyingSpill {
        inner: CalmSpill::new(alloc, 0, 1_000_000),
        start,
        end,
        byte,
        reads: 0,
    }
}

// The block of the row of the text `paris` in a file of a spool.
const PARIS: [u8; 23] = [
    0, 0, 0, 1, 0, 0, 0, 0, 0, 0, 0, 11, 1, 2, 0, 0, 0, 5, b'p', b'a', b'r', b'i', b's',
];

fn rows_of(alloc: Global, lines: &str) -> Result<Rows, Fail> {
    let mut rows = Rows::new(alloc);
    for line in lines.lines() {
        rows.push(alloc, &row_of(alloc, line)?)?;
    }
    Ok(rows)
}

// Puts the rows as a block of a spool's file.
fn put_spooled<F: Spill>(
    alloc: Global,
    file: &mut BlockFile<F>,
    rows: &Rows,
) -> Result<Result<BlockId, BlockFault>, Fail>
    ensures { IfOk result (λ answer. IfOk answer (λ block. block < length file.new.shapes)) }
{
    if rows.is_empty() || rows.len() > 100_000 || !have_one_width(rows) {
        return Err(Fail::from("no block"));
    }
    Ok(file.put_spooled(alloc, rows))
}

#[test]
fn a_block_is_its_bytes(rt: HostRuntime) -> Result<(), Fail> {
    let alloc = rt.alloc();
    let (need, limit) = (23, 22);
    let full = Some(BlockFault::SpillFull { need, limit });
    for (limit, answer, written) in [(23, None, PARIS.as_slice()), (22, full, &[])] {
        let spill = CalmSpill::new(alloc, 0, limit);
        let mut file = BlockFile::new(alloc, spill, 0, EntryForm::Spool);
        let put = put_spooled(alloc, &mut file, &rows_of(alloc, "paris")?)?;
        assert_eq!(rt; put.err(), answer);
        let mut room = [0u8; 32];
        let count = file.into_file().read_at(0, &mut room)?;
        assert!(rt; count <= 32);
        assert_eq!(rt; &room[..count], written);
    }
    Ok(())
}

// The block of one entry of a join's file: the numbers 7 and 258, and the row of the number 1.
const NUMBERED: [u8; 38] = [
    0, 0, 0, 1, 0, 0, 0, 0, 0, 0, 0, 26, 0, 0, 0, 0, 0, 0, 0, 7, 0, 0, 0, 0, 0, 0, 1, 2, 1, 1, 0,
    0, 0, 0, 0, 0, 0, 1,
];

#[test]
fn numbers_stand_before_the_row(rt: HostRuntime) -> Result<(), Fail> {
    let alloc = rt.alloc();
    let mut entries = Entries::new(alloc);
    entries.push_row(alloc, 7, 258, &row_of(alloc, "1")?)?;
    let mut file = BlockFile::new(alloc, CalmSpill::new(alloc, 0, 1_000), 0, EntryForm::Join);
    let _block = put(alloc, &mut file, &entries)??;
    let mut room = [0u8; 64];
    let count = file.into_file().read_at(0, &mut room)?;
    assert_eq!(rt; count, 38);
    assert_eq!(rt; &room[..38], NUMBERED.as_slice());
    Ok(())
}

// Reads a block from its first entry on, so many entries at once, and tells how many of them are right.
fn read_in_rooms<F: Spill>(
    alloc: Global,
    file: &mut BlockFile<F>,
    block: BlockId,
    whole: &Entries,
    room: u32,
) -> Result<usize, Fail>
    requires { block < length file.old.shapes }
{
    let mut from = 0u32;
    let mut same = 0usize;
    for _ in 0..=whole.len() {
        let read = file.rows_of(alloc, block, from, room)?;
        same = same.saturating_add(same_entries(&read, from as usize, whole));
        from = from.saturating_add(room);
    }
    Ok(same)
}

// The 300 entries take 31 bytes each beside their texts of 0 to 299 times three letters, which are 143,850 in all, and so
// 2.2 pieces.
#[test]
fn a_block_is_read_once_by_large_pieces(rt: HostRuntime) -> Result<(), Fail> {
    let alloc = rt.alloc();
    let entries = entries_of(alloc, 300)?;
    for room in [300, 7, 1] {
        let mut file = BlockFile::new(alloc, lying(alloc, 0, 0, 0), 4, EntryForm::Join);
        let block = put(alloc, &mut file, &entries)??;
        assert_eq!(rt;
            (file.number(), file.blocks(), file.count(block)),
            (4, 1, 300)
        );
        let same = read_in_rooms(alloc, &mut file, block, &entries, room)?;
        assert_eq!(rt; (same, file.into_file().reads), (300, 3));
    }
    Ok(())
}

// The rows of a block, where a lie begins and ends, its byte, and what is found. The block has its head, the 11 bytes of
// `paris` from 12 on, and the 10 of `rome` from 23 on.
const LIES: [(&str, u64, u64, u8, Option<u64>); 9] = [
    ("paris", 0, 4, 0, Some(0)),
    ("paris\nrome", 0, 0, 0, None),
    ("paris\nrome", 0, 4, 0, Some(0)),
    ("paris\nrome", 3, 4, 1, Some(1)),
    ("paris\nrome", 3, 4, 9, Some(9)),
    ("paris\nrome", 4, 12, 9, None),
    ("paris\nrome", 12, 13, 2, Some(0)),
    ("paris\nrome", 24, 25, 4, Some(1)),
    ("paris\nrome", 28, 29, 5, Some(1)),
];

#[test]
fn a_file_that_lies_differs(rt: HostRuntime) -> Result<(), Fail> {
    let alloc = rt.alloc();
    for (lines, start, end, byte, found) in LIES {
        let rows = rows_of(alloc, lines)?;
        let kept = rows.len() as u64;
        let spill = lying(alloc, start, end, byte);
        let mut file = BlockFile::new(alloc, spill, 0, EntryForm::Spool);
        let block = put_spooled(alloc, &mut file, &rows)??;
        let fault = file.rows_of(alloc, block, 0, 5).err();
        let differs = found.map(|found| BlockFault::Differs { kept, found });
        assert_eq!(rt; fault, differs, "{lines} from {start} on");
    }
    Ok(())
}

// Whether the block reads as the entries, or why not.
fn reads_as<F: Spill>(
    alloc: Global,
    file: &mut BlockFile<F>,
    block: BlockId,
    entries: &Entries,
) -> Result<bool, BlockFault>
    requires { block < length file.old.shapes }
    ensures shapes { file.new.shapes ≡ file.old.shapes }
    ensures form { file.new.form ≡ file.old.form }
{
    let read = file.rows_of(alloc, block, 0, 1_000)?;
    Ok(same_entries(&read, 0, entries) == entries.len())
}

#[test]
fn each_call_of_the_file_fails_once(rt: HostRuntime) -> Result<(), Fail> {
    let alloc = rt.alloc();
    let entries = entries_of(alloc, 300)?;
    let script = SpillScript {
        file: 0,
        appends: vec![in alloc; 0, 2]?,
        reads: vec![in alloc; 0, 2]?,
    };
    let spill = MemSpill::new(alloc, 1_000_000, script);
    let mut file = BlockFile::new(alloc, spill, 0, EntryForm::Join);
    let fault = Some(BlockFault::SpillFault);
    assert_eq!(rt; put(alloc, &mut file, &entries)?.err(), fault);
    let block = put(alloc, &mut file, &entries)??;
    for answer in [
        Err(BlockFault::SpillFault),
        Err(BlockFault::SpillFault),
        Ok(true),
    ] {
        assert_eq!(rt; reads_as(alloc, &mut file, block, &entries), answer);
    }
    assert_eq!(rt; put(alloc, &mut file, &entries)?.err(), fault);
    assert_eq!(rt; file.blocks(), 1);
    Ok(())
}
