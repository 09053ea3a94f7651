//! What no clause says: that each call gives an answer, and rows compared with a list.

ghost use Rattle.std.specs.Prelude.{IfOk};
ghost use Rattle.tuple_core.specs.Values.{FitsValue};

use crate::Spool;
use med_base::{MemSpill, Spill, SpillScript};
use row_pages::Rows;
use spill_blocks::{BlockFault, BlockFile, EntryForm, have_one_width};
use std::alloc::Global;
use std::test::Fail;
use tuple_core::{Kind, Row, Value, parse_value};

fn value_of(alloc: Global, text: &str) -> Result<Value, Fail>
    ensures { IfOk result FitsValue }
{
    Ok(parse_value(alloc, Kind::Text, text.as_bytes())?.ok_or("no value")?)
}

// Rows of one text, the decimal numbers from `first` on, in at least so many letters.
fn rows_from(alloc: Global, first: u64, length: u64, letters: usize) -> Result<Rows, Fail> {
    let mut rows = Rows::new(alloc);
    for step in 0..length {
        let mut values = Vec::new(alloc);
        let number = first.wrapping_add(step);
        let text = format!(in alloc; "{number:0letters$}")?;
        values.push(value_of(alloc, text.as_str())?)?;
        rows.push(alloc, &Row::new(values))?;
    }
    Ok(rows)
}

fn append<F: Spill>(
    alloc: Global,
    spool: &mut Spool<F>,
    rows: &Rows,
) -> Result<Result<(), BlockFault>, Fail> {
    if rows.len() > 100_000 || !have_one_width(rows) {
        return Err(Fail::from("no rows of one width"));
    }
    Ok(spool.append(alloc, rows))
}

// Whether the rows are so many of a list from a position on, or all that are left.
fn is_part(rows: &Rows, from: u64, room: u32, whole: &Rows) -> bool {
    let left = (whole.len() as u64).saturating_sub(from);
    let mut position = from as usize;
    for row in rows.iter() {
        if whole.get(position) != Some(row) {
            return false;
        }
        position = position.saturating_add(1);
    }
    rows.len() as u64 == left.min(u64::from(room))
}

// From how many positions before one a scan gives the rows of a list.
fn right_scans<F: Spill>(
    alloc: Global,
    spool: &mut Spool<F>,
    end: u64,
    room: u32,
    whole: &Rows,
) -> Result<u64, BlockFault> {
    let mut right = 0u64;
    for from in 0..end {
        let rows = spool.scan(alloc, from, room)?;
        if is_part(&rows, from, room, whole) {
            right = right.saturating_add(1);
        }
    }
    Ok(right)
}

// A spool whose file fails where its script says.
fn scripted(alloc: Global, limit: u64, appends: Vec<usize>, reads: Vec<usize>) -> Spool<MemSpill> {
    let script = SpillScript {
        file: 0,
        appends,
        reads,
    };
    let spill = MemSpill::new(alloc, limit, script);
    Spool::new(BlockFile::new(alloc, spill, 0, EntryForm::Spool))
}

// Appends so many rows of the list as each length says, one block after another.
fn append_all<F: Spill>(
    alloc: Global,
    spool: &mut Spool<F>,
    letters: usize,
    lengths: &[u64],
) -> Result<(), Fail> {
    let mut first = 0u64;
    for length in lengths {
        let rows = rows_from(alloc, first, *length, letters)?;
        append(alloc, spool, &rows)??;
        first = first.saturating_add(*length);
    }
    Ok(())
}

#[test]
fn scans_give_what_was_appended(rt: HostRuntime) -> Result<(), Fail> {
    let alloc = rt.alloc();
    let whole = rows_from(alloc, 0, 70, 1)?;
    let mut spool = scripted(alloc, 1_000_000, Vec::new(alloc), Vec::new(alloc));
    append_all(alloc, &mut spool, 1, &[1, 0, 39, 7, 23])?;
    for room in [1, 3, 40, 500] {
        assert_eq!(rt; right_scans(alloc, &mut spool, 72, room, &whole)?, 72);
    }
    assert_eq!(rt; spool.finish(), 70);
    assert_eq!(rt; spool.into_file().blocks(), 4);
    Ok(())
}

// Two rows of 10,000 letters make a block of 20,024 bytes, and seven blocks end in the third piece of the file. The fourth
// read fails.
#[test]
fn a_spool_that_is_scanned_in_order_is_read_once(rt: HostRuntime) -> Result<(), Fail> {
    let alloc = rt.alloc();
    let whole = rows_from(alloc, 0, 14, 10_000)?;
    let mut spool = scripted(alloc, 1_000_000, Vec::new(alloc), vec![in alloc; 3]?);
    append_all(alloc, &mut spool, 10_000, &[2, 2, 2, 2, 2, 2, 2])?;
    for answer in [Ok(14), Err(BlockFault::SpillFault)] {
        assert_eq!(rt; right_scans(alloc, &mut spool, 14, 1, &whole), answer);
    }
    Ok(())
}

#[test]
fn refusals_are_told(rt: HostRuntime) -> Result<(), Fail> {
    let alloc = rt.alloc();
    let rows = rows_from(alloc, 0, 3, 5)?;
    let mut spool = scripted(alloc, 48, vec![in alloc; 0]?, vec![in alloc; 0]?);
    let (need, limit) = (45, 48);
    for answer in [
        Err(BlockFault::SpillFault),
        Ok(()),
        Err(BlockFault::SpillFull { need, limit }),
    ] {
        assert_eq!(rt; append(alloc, &mut spool, &rows)?, answer);
    }
    for answer in [Err(BlockFault::SpillFault), Ok(3)] {
        assert_eq!(rt; right_scans(alloc, &mut spool, 3, 9, &rows), answer);
    }
    Ok(())
}
