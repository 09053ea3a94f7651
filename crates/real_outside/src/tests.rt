//! Each adapter on its happy path, and what its file makes it answer.

use crate::{FileOpener, FileShelf, FileSpills, StdSink, spill_folder};
use med_base::{
    FETCHED_MOST, Opener, OutsideFault, Pull, Shelf, Sink, Source, Spill, SpillFault, SpillSet,
};
use med_prelude::Text;
use std::alloc::Global;
use std::env::FillError;
use std::path::PathBuf;
use std::rt::Env;
use std::test::Fail;
use std::{env, fs, io, process};

/// A path that no other test uses.
pub fn scratch(rt: &HostRuntime, name: &str) -> io::Result<PathBuf> {
    let name = format!(in rt.alloc(); "real-outside-{}-{name}", process::id(rt.process()))?;
    Ok(env::temp_dir(rt)?.join(rt.alloc(), name.as_str())?)
}

#[test]
fn shelf_of_files(rt: HostRuntime) -> Result<(), Fail> {
    let alloc = rt.alloc();
    let path = scratch(&rt, "shelf")?;
    let mut shelf = FileShelf::new(alloc, &rt);
    fs::write(&rt, path.as_path(), "plan")?;
    let short = shelf.fetch(alloc, path.as_path().as_str());
    let long = vec![in alloc; 7u8; FETCHED_MOST + 5]?;
    fs::write(&rt, path.as_path(), long.as_slice())?;
    let cut = shelf.fetch(alloc, path.as_path().as_str());
    fs::remove_file(&rt, path.as_path())?;
    assert_eq!(rt; short?.as_slice(), b"plan".as_slice());
    assert_eq!(rt; cut?.len(), 1_048_577);
    assert_eq!(rt;
        shelf.fetch(alloc, path.as_path().as_str()),
        Err(OutsideFault::Failed)
    );
    Ok(())
}

/// How many files the process has open, among them the list that is read here.
fn open_files(rt: &HostRuntime) -> io::Result<usize> {
    Ok(fs::read_dir(rt, "/proc/self/fd")?.count())
}

#[test]
fn source_of_a_file_is_closed_at_its_end(rt: HostRuntime) -> Result<(), Fail> {
    let alloc = rt.alloc();
    let path = scratch(&rt, "opener")?;
    let text = vec![in alloc; b'x'; 150]?;
    fs::write(&rt, path.as_path(), text.as_slice())?;
    let before = open_files(&rt)?;
    let mut opener = FileOpener::new(alloc, &rt);
    let opened = opener.open_at(alloc, path.as_path().as_str());
    fs::remove_file(&rt, path.as_path())?;
    let mut source = opened?;
    assert_eq!(rt; open_files(&rt)?, before.saturating_add(1));
    let mut room = [0u8; 100];
    assert_eq!(rt; source.pull(&mut []), Pull::Bytes(0));
    for answer in [Pull::Bytes(100), Pull::Bytes(50), Pull::End, Pull::End] {
        assert_eq!(rt; source.pull(&mut room), answer);
        assert_eq!(rt; &room, &[b'x'; 100]);
    }
    assert_eq!(rt; open_files(&rt)?, before);
    let gone = opener.open_at(alloc, path.as_path().as_str());
    assert!(rt; gone.is_err(), "no such file");
    Ok(())
}

#[test]
fn sink_over_a_file(rt: HostRuntime) -> Result<(), Fail> {
    let path = scratch(&rt, "sink")?;
    {
        let mut sink = StdSink::new(fs::create(&rt, path.as_path())?);
        assert_eq!(rt; sink.write(rt.alloc(), b"abc"), Ok(3));
    }
    let text = fs::read_to_string(&rt, path.as_path())?;
    fs::remove_file(&rt, path.as_path())?;
    assert_eq!(rt; text.as_str(), "abc");
    Ok(())
}

#[test]
fn spill_files_leave_no_trace(rt: HostRuntime) -> Result<(), Fail> {
    let alloc = rt.alloc();
    let folder = scratch(&rt, "spills")?;
    fs::create_dir(&rt, folder.as_path())?;
    let name = Text::from_str(alloc, folder.as_path().as_str())?;
    let mut spills = FileSpills::new(alloc, &rt, Some(name));
    let mut first = spills.make(alloc, 0, 10)?;
    let mut second = spills.make(alloc, 1, 10)?;
    let entries = fs::read_dir(&rt, folder.as_path())?.count();
    fs::remove_dir(&rt, folder.as_path())?;
    assert_eq!(rt; entries, 0, "while the files are open");
    assert!(rt; spills.make(alloc, 2, 10).is_err(), "no such folder");
    let full = Err(SpillFault::Full { need: 1, limit: 10 });
    for (bytes, answer) in [
        (b"abcdef".as_slice(), Ok(0)),
        (b"ghij", Ok(6)),
        (b"k", full),
    ] {
        assert_eq!(rt; second.append(alloc, &bytes[..1]).is_ok(), true);
        assert_eq!(rt; first.append(alloc, bytes), answer);
    }
    let mut room = *b"........";
    for (at, count, left) in [
        (1, 8, b"bcdefghi"),
        (8, 2, b"ijdefghi"),
        (10, 0, b"ijdefghi"),
    ] {
        assert_eq!(rt; first.read_at(at, &mut room), Ok(count));
        assert_eq!(rt; &room, left);
    }
    Ok(())
}

/// A system with one variable, or none.
#[derive(Drop)]
struct System<'a> {
    folder: Option<&'a [u8]>,
}

impl Env for System<'_> {
    fn arg(&self, _number: usize, _room: &mut [u8]) -> Result<usize, FillError> {
        Err(FillError::NotPresent)
    }

    fn var(&self, name: &str, room: &mut [u8]) -> Result<usize, FillError> {
        match self.folder {
            Some(path) if name == "TMPDIR" && path.len() <= room.len() => {
                room[..path.len()].copy_from_slice(path);
                Ok(path.len())
            }
            _ => Err(FillError::NotPresent),
        }
    }

    fn var_at(&self, _number: usize, _room: &mut [u8]) -> Result<usize, FillError> {
        Err(FillError::NotPresent)
    }
}

fn folder_of(alloc: Global, folder: Option<&[u8]>) -> Result<Option<Text>, Fail> {
    Ok(spill_folder(&(System { folder }, alloc))?)
}

#[test]
fn spill_files_go_to_the_folder_that_is_named(rt: HostRuntime) -> Result<(), Fail> {
    let variables = [
        (None, Some("/tmp")),
        (Some(b"/var/spill".as_slice()), Some("/var/spill")),
        (Some(b"/var/\xff"), None),
    ];
    for (variable, folder) in variables {
        let found = folder_of(rt.alloc(), variable)?;
        assert_eq!(rt; found.as_ref().map(|text| text.as_str()), folder);
    }
    Ok(())
}
