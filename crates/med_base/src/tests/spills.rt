//! Spill files in memory.

use crate::{CalmSpills, Files, MemSpills, Spill, SpillFault, SpillScript, SpillSet};
use std::alloc::{AllocError, Global};
use std::process::Abort;
use std::test::Fail;

type Append<'a> = (&'a [u8], Result<u64, SpillFault>);

type ReadAt<'a> = (u64, Result<usize, SpillFault>, &'a [u8; 4]);

fn append_each<F: Spill>(rt: &impl Abort, alloc: Global, file: &mut F, steps: &[Append<'_>]) {
    for (bytes, answer) in steps {
        assert_eq!(*rt; file.append(alloc, bytes), *answer);
    }
}

/// Each read finds in the room what the one before left there.
fn read_each<F: Spill>(rt: &impl Abort, file: &mut F, steps: &[ReadAt<'_>]) {
    let mut room = *b"....";
    for (at, answer, left) in steps {
        assert_eq!(*rt; file.read_at(*at, &mut room), *answer);
        assert_eq!(*rt; &room, *left);
    }
}

fn full(need: u64, limit: u64) -> Result<u64, SpillFault> {
    Err(SpillFault::Full { need, limit })
}

fn third_append_and_second_read_fail(alloc: Global) -> Result<MemSpills, AllocError> {
    let script = SpillScript {
        file: 3,
        appends: vec![in alloc; 2]?,
        reads: vec![in alloc; 1]?,
    };
    Ok(MemSpills::new(alloc, vec![in alloc; script]?, vec![in alloc; 1]?))
}

#[test]
fn spill_file_in_memory_follows_its_script(rt: HostRuntime) -> Result<(), Fail> {
    let mut spills = third_append_and_second_read_fail(rt.alloc())?;
    let mut file = spills.make(rt.alloc(), 3, 10)?;
    let appends = [
        (b"abc".as_slice(), Ok(0)),
        (b"defg", Ok(3)),
        (b"hij", Err(SpillFault::Failed)),
        (b"hijk", full(4, 10)),
        (b"hij", Ok(7)),
        (b"k", full(1, 10)),
        (b"", Ok(10)),
    ];
    append_each(&rt, rt.alloc(), &mut file, &appends);
    let reads = [
        (5, Ok(4), b"fghi"),
        (8, Err(SpillFault::Failed), b"fghi"),
        (8, Ok(2), b"ijhi"),
        (10, Ok(0), b"ijhi"),
        (u64::MAX, Ok(0), b"ijhi"),
    ];
    read_each(&rt, &mut file, &reads);
    Ok(())
}

#[test]
fn set_in_memory_follows_its_script(rt: HostRuntime) -> Result<(), Fail> {
    let mut spills = third_append_and_second_read_fail(rt.alloc())?;
    for (number, fails) in [(0, false), (1, true), (2, false)] {
        assert_eq!(rt; spills.make(rt.alloc(), number, 9).is_err(), fails);
    }
    assert_eq!(rt; spills.asked(), [(0, 9), (1, 9), (2, 9)].as_slice());
    Ok(())
}

#[test]
fn calm_set_makes_files_of_their_own_limits(rt: HostRuntime) -> Result<(), Fail> {
    let mut spills = CalmSpills::new(rt.alloc());
    let mut files = Files::new(rt.alloc());
    files.push(spills.make(rt.alloc(), 0, 5)?)?;
    files.push(spills.make(rt.alloc(), 1, 4)?)?;
    assert_eq!(rt; spills.asked(), [(0, 5), (1, 4)].as_slice());
    for mut file in files.into_vec() {
        append_each(&rt, rt.alloc(), &mut file, &[(b"abcd", Ok(0))]);
        read_each(&rt, &mut file, &[(1, Ok(3), b"bcd.")]);
    }
    Ok(())
}
