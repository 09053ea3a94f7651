//! Spill files over real files, which have no name.

ghost use Rattle.std.specs.Prelude.{◌≡◌, ◌≤◌, [], true};
ghost use Rattle.std.specs.Fs.{asks_create_new};
ghost use Rattle.med_base.specs.Spills.{TellsLength};

use med_base::bookkeeping::{counted_fault, end_within, fault_of};
use med_base::{Spill, SpillFault, SpillSet};
use med_prelude::{Listed, Text};
use std::alloc::Global;
use std::fs::OpenOptions;
use std::io::{Error, ErrorKind};
use std::os::unix::fs::{FileExt, OpenOptionsExt};
use std::rt::Files;
use std::{fs, io};

/// How many names are tried for a file. Another run may hold one for the moment in which it makes a file, and one
/// that was killed in that moment has left an empty file, which is passed over.
const NAMES_MOST: u32 = 1_000_000;

/// A spill file over a file of the system. It tells its length and no bytes. Any error of the system in an append
/// or a read is a failure.
#[derive(Drop)]
pub struct FileSpill<F> {
    number: u32,
    limit: u64,
    file: F,
    len: u64,
    faults: u64,
}

impl<F: FileExt + Drop> Spill for FileSpill<F> {
    ghost state = { λ s. record { number = s.number; limit = s.limit; content = TellsLength s.len; past_end = []; faults = s.faults } };

    fn append(&mut self, _alloc: Global, bytes: &[u8]) -> Result<u64, SpillFault> {
        let at = self.len;
        let end = end_within(at, bytes.len() as u64, self.limit)?;
        match self.file.write_all_at(bytes, at) {
            Ok(()) => {
                self.len = end;
                Ok(at)
            }
            Err(_) => Err(SpillFault::from(counted_fault(&mut self.faults))),
        }
    }

    fn read_at(&mut self, at: u64, room: &mut [u8]) -> Result<usize, SpillFault> {
        let count = self.len.saturating_sub(at).min(room.len() as u64) as usize;
        match self.file.read_exact_at(&mut room[..count], at) {
            Ok(()) => Ok(count),
            Err(_) => Err(SpillFault::from(counted_fault(&mut self.faults))),
        }
    }
}

/// A set of spill files in a folder. A file's name is taken away as soon as it is open, so that nothing is left
/// of it once it is dropped or the process ends, however that ends. Nobody else may open it: it is made anew under
/// a name that wasn't there, and for its owner alone.
#[derive(Drop)]
pub struct FileSpills<'a, R: Files> {
    rt: &'a R,
    folder: Option<Text>,
    asked: Listed<(u32, u64)>,
    faults: u64,
}

impl<'a, R: Files> FileSpills<'a, R>
where
    R::File: FileExt + Send,
{
    /// A set that made nothing yet. `folder` is the path of a folder that is there; without one no file can be
    /// made, and each call fails.
    pub fn new(alloc: Global, rt: &'a R, folder: Option<Text>) -> Self
        ensures faults { ⟦<FileSpills<'a, R> as SpillSet>⟧.faults result ≡ 0 }
        ensures asked { ⟦<FileSpills<'a, R> as SpillSet>⟧.asked result ≡ [] }
    {
        FileSpills {
            rt,
            folder,
            asked: Listed::new(alloc),
            faults: 0,
        }
    }
}

impl<'a, R: Files> SpillSet for FileSpills<'a, R>
where
    R::File: FileExt + Send,
{
    type F = FileSpill<R::File>;

    ghost faults = { λ s. s.faults };

    ghost asked = { λ s. s.asked };

    fn make(
        &mut self,
        alloc: Global,
        number: u32,
        limit: u64,
    ) -> Result<FileSpill<R::File>, SpillFault> {
        self.asked.push((number, limit))?;
        let Some(folder) = &self.folder else {
            return Err(SpillFault::from(counted_fault(&mut self.faults)));
        };
        match nameless(self.rt, alloc, folder.as_str()) {
            Ok(file) => Ok(FileSpill {
                number,
                limit,
                file,
                len: 0,
                faults: 0,
            }),
            Err(error) => Err(SpillFault::from(fault_of(error, &mut self.faults))),
        }
    }
}

/// An empty file in the folder, which has lost its name already.
fn nameless<R: Files>(rt: &R, alloc: Global, folder: &str) -> io::Result<R::File> {
    let options = new_file();
    for name in 0..NAMES_MOST {
        let path = format!(in alloc; "{folder}/mediator-spill-{name}")?;
        match options.open(rt, path.as_str()) {
            Ok(file) => {
                fs::remove_file(rt, path.as_str())?;
                return Ok(file);
            }
            Err(error) if error.kind() == ErrorKind::AlreadyExists => {}
            Err(error) => return Err(error),
        }
    }
    Err(Error::from(ErrorKind::AlreadyExists))
}

/// How a spill file is opened: where nothing has its name, and for its owner alone.
fn new_file() -> OpenOptions
    ensures { asks_create_new result ≡ true }
{
    let mut options = OpenOptions::new();
    options.mode(0o600);
    options.read(true).write(true).create_new(true);
    options
}

#[cfg(test)]
mod tests {
    use super::*;
    use crate::tests::scratch;
    use std::cell::Cell;
    use std::os::unix::fs::MetadataExt;
    use std::test::Fail;

    /// It takes and gives four bytes in all, and fails where a write goes past them. Its first call is interrupted.
    #[derive(Drop)]
    struct Small {
        calls: Cell<u32>,
    }

    impl Small {
        fn room_at(&self, at: u64) -> io::Result<usize> {
            let call = self.calls.get();
            self.calls.set(call.saturating_add(1));
            match call {
                0 => Err(Error::from(ErrorKind::Interrupted)),
                _ => Ok(4usize.saturating_sub(at.min(4) as usize)),
            }
        }
    }

    impl FileExt for Small {
        fn read_at(&self, room: &mut [u8], at: u64) -> io::Result<usize> {
            Ok(room.len().min(self.room_at(at)?))
        }

        fn write_at(&self, bytes: &[u8], at: u64) -> io::Result<usize> {
            match self.room_at(at)? {
                0 => Err(Error::other("full")),
                left => Ok(bytes.len().min(left)),
            }
        }
    }

    fn file_over_small(limit: u64, len: u64) -> FileSpill<Small> {
        FileSpill {
            number: 0,
            limit,
            file: Small {
                calls: Cell::new(0),
            },
            len,
            faults: 0,
        }
    }

    #[test]
    fn failures_leave_the_length(rt: HostRuntime) -> Result<(), Fail> {
        let alloc = rt.alloc();
        let mut file = file_over_small(9, 0);
        let appends = [
            (b"ab".as_slice(), Ok(0)),
            (b"cde", Err(SpillFault::Failed)),
            (b"cd", Ok(2)),
            (b"efghij", Err(SpillFault::Full { need: 6, limit: 9 })),
        ];
        for (bytes, answer) in appends {
            assert_eq!(rt; file.append(alloc, bytes), answer);
        }
        let mut room = [0u8; 8];
        assert_eq!(rt; file.read_at(1, &mut room), Ok(3));
        assert_eq!(rt; file.faults, 1);
        let mut lost = file_over_small(9, 5);
        assert_eq!(rt; lost.read_at(2, &mut room[..2]), Ok(2));
        assert_eq!(rt;
            lost.read_at(3, &mut room[..2]),
            Err(SpillFault::Failed),
            "a byte is lost"
        );
        assert_eq!(rt; lost.faults, 1);
        Ok(())
    }

    #[test]
    fn files_of_killed_runs_are_passed_over(rt: HostRuntime) -> Result<(), Fail> {
        let alloc = rt.alloc();
        let folder = scratch(&rt, "killed")?;
        fs::create_dir(&rt, folder.as_path())?;
        let name = Text::from_str(alloc, folder.as_path().as_str())?;
        for number in 0..1_200 {
            let path = format!(in alloc; "{}/mediator-spill-{number}", name.as_str())?;
            fs::write(&rt, path.as_str(), "x")?;
        }
        let mut spills = FileSpills::new(alloc, &rt, Some(name));
        let made = spills.make(alloc, 0, 6);
        let entries = fs::read_dir(&rt, folder.as_path())?.count();
        fs::remove_dir_all(&rt, folder.as_path())?;
        assert_eq!(rt; entries, 1_200);
        assert_eq!(rt; made?.file.metadata()?.mode() % 0o1000, 0o600);
        let mut nowhere = FileSpills::new(alloc, &rt, None);
        assert!(rt; nowhere.make(alloc, 0, 6).is_err());
        assert_eq!(rt; nowhere.faults, 1);
        Ok(())
    }
}
