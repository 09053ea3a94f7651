//! An opener whose locations are paths of files, and the sources that it gives.

ghost use Rattle.std.specs.Prelude.{◌≡◌, ◌+◌, ◌<◌, ◌≤◌, [], length, None, IfOk};
ghost use Rattle.med_prelude.specs.Counts.{Rose};
ghost use Rattle.med_base.specs.Outside.{FitsRoom, IfPullFailed, CountsWait, bytes_count, dry_after};
ghost use Rattle.real_outside.specs.Known.{ClosesAtLast, TakesGiven, left_bytes};

use crate::again::read_again;
use med_base::bookkeeping::{fault_of, note_asked};
use med_base::{OpenFault, Opener, Pull, Source};
use med_prelude::{Listed, Text, raise};
use std::alloc::Global;
use std::fs;
use std::io::Read;
use std::rt::Files;

/// The most bytes that a source over a file gives: it fails where it is pulled further.
const GIVEN_MOST: u64 = 1 << 60;

/// A file that is read to its end, and held no longer than it gives bytes.
#[derive(Drop)]
pub enum Handle<F> {
    Open(F),
    /// It was read to its end.
    AtEnd,
    /// A read failed.
    Failed,
}

impl<F: Read + Drop> Handle<F> {
    /// The next bytes. The file is closed at its end, and where a read fails.
    fn read(&mut self, room: &mut [u8]) -> Pull
        requires { 0 < length room.old }
        ensures fits { FitsRoom result room.new }
        ensures taken { TakesGiven (left_bytes F.remaining self.old) (left_bytes F.remaining self.new) result room.new }
        ensures closed { ClosesAtLast result self.new }
    {
        let read = match self {
            Handle::Open(file) => read_again(file, room),
            Handle::AtEnd => return Pull::End,
            Handle::Failed => return Pull::Failed,
        };
        match read {
            Ok(0) => {
                *self = Handle::AtEnd;
                Pull::End
            }
            Ok(count) => Pull::Bytes(count),
            Err(_) => {
                *self = Handle::Failed;
                Pull::Failed
            }
        }
    }
}

/// A source over a file. It tells no bytes, never answers `NotYet`, and gives at most 2^60 bytes. It holds its
/// file no longer than it gives bytes: once it told the end it tells it at every pull, and so a failure.
#[derive(Drop)]
pub struct FileSource<F> {
    location: Text,
    file: Handle<F>,
    left: u64,
    faults: u64,
    mark: u64,
}

impl<F: Read + Drop> FileSource<F> {
    /// A source that gives what the file has left. `mark` is the number of the opening that gives it.
    fn new(location: Text, file: F, mark: u64) -> Self
        ensures mark { ⟦<FileSource<F> as Source>⟧.mark result ≡ mark }
        ensures location { ⟦<FileSource<F> as Source>⟧.location result ≡ location }
        ensures faults { ⟦<FileSource<F> as Source>⟧.faults result ≡ 0 }
        ensures left { ⟦<FileSource<F> as Source>⟧.left result ≡ GIVEN_MOST }
        ensures file { left_bytes F.remaining result.file ≡ F.remaining file }
    {
        FileSource {
            location,
            file: Handle::Open(file),
            left: GIVEN_MOST,
            faults: 0,
            mark,
        }
    }
}

impl<F: Read + Drop> Source for FileSource<F> {
    type Mark = u64;

    ghost mark = { λ s. s.mark };

    ghost location = { λ s. s.location };

    ghost taken = { λ _. None };

    ghost whole = { λ _. None };

    ghost faults = { λ s. s.faults };

    ghost waits = { λ _. 0 };

    ghost dry = { λ _. 0 };

    ghost left = { λ s. s.left };

    fn pull(&mut self, room: &mut [u8]) -> Pull
        ensures fits { FitsRoom result room.new }
        ensures location { self.new.location ≡ self.old.location }
        ensures mark { self.new.mark ≡ self.old.mark }
        ensures faults { self.old.faults ≤ self.new.faults }
        ensures failed { IfPullFailed result (Rose self.old.faults self.new.faults) }
        ensures waits { CountsWait result 0 0 }
        ensures dry { dry_after result 0 ≡ 0 }
        ensures left { self.new.left + bytes_count result ≤ self.old.left }
        ensures given { TakesGiven (left_bytes F.remaining self.old.file) (left_bytes F.remaining self.new.file) result room.new }
        ensures closed { ClosesAtLast result self.new.file }
    {
        if room.is_empty() {
            return Pull::Bytes(0);
        }
        let most = self.left.min(room.len() as u64) as usize;
        if most == 0 {
            self.file = Handle::Failed;
            self.faults = raise(self.faults);
            return Pull::Failed;
        }
        let answer = self.file.read(&mut room[..most]);
        match answer {
            Pull::Bytes(count) => self.left -= count as u64,
            Pull::Failed => self.faults = raise(self.faults),
            Pull::NotYet | Pull::End => {}
        }
        answer
    }
}

/// An opener of files. It tells no text.
#[derive(Drop)]
pub struct FileOpener<'a, R: Files> {
    rt: &'a R,
    asked: Listed<Text>,
    given: Vec<u64>,
    faults: u64,
}

impl<'a, R: Files> FileOpener<'a, R>
where
    R::File: Send,
{
    /// An opener that wasn't asked for anything yet.
    pub fn new(alloc: Global, rt: &'a R) -> Self
        ensures told { ⟦<FileOpener<'a, R> as Opener>⟧.told result ≡ (λ _. None) }
        ensures faults { ⟦<FileOpener<'a, R> as Opener>⟧.faults result ≡ 0 }
        ensures asked { ⟦<FileOpener<'a, R> as Opener>⟧.asked result ≡ [] }
        ensures given { ⟦<FileOpener<'a, R> as Opener>⟧.given result ≡ [] }
    {
        FileOpener {
            rt,
            asked: Listed::new(alloc),
            given: Vec::new(alloc),
            faults: 0,
        }
    }
}

impl<'a, R: Files> Opener for FileOpener<'a, R>
where
    R::File: Send,
{
    type S = FileSource<R::File>;

    ghost told = { λ _ _. None };

    ghost faults = { λ o. o.faults };

    ghost asked = { λ o. o.asked };

    ghost given = { λ o. o.given.items };

    fn open_at(&mut self, alloc: Global, location: &str) -> Result<FileSource<R::File>, OpenFault> {
        note_asked(alloc, &mut self.asked, location)?;
        match fs::open(self.rt, location) {
            Ok(file) => {
                let mark = self.given.len() as u64;
                let location = Text::from_str(alloc, location)?;
                self.given.push(mark)?;
                Ok(FileSource::new(location, file, mark))
            }
            Err(error) => Err(fault_of(error, &mut self.faults)),
        }
    }
}

#[cfg(test)]
mod tests {
    use super::*;
    use std::io;
    use std::io::{Error, ErrorKind};
    use std::test::Fail;

    /// It gives two bytes at a read, is interrupted at its second, and fails at its fourth.
    #[derive(Drop)]
    struct Flaky {
        reads: u32,
    }

    impl Read for Flaky {
        fn read(&mut self, room: &mut [u8]) -> io::Result<usize> {
            self.reads = self.reads.saturating_add(1);
            match self.reads {
                2 => Err(Error::from(ErrorKind::Interrupted)),
                4 => Err(Error::other("broken")),
                _ => Ok(room.len().min(2)),
            }
        }
    }

    #[test]
    fn source_fails_in_mid_stream_and_once_it_is_used_up(rt: HostRuntime) -> Result<(), Fail> {
        let answers = [
            (
                9,
                [Pull::Bytes(2), Pull::Bytes(2), Pull::Failed, Pull::Failed],
            ),
            (
                3,
                [Pull::Bytes(2), Pull::Bytes(1), Pull::Failed, Pull::Failed],
            ),
        ];
        for (left, answers) in answers {
            let location = Text::from_str(rt.alloc(), "flaky")?;
            let mut source = FileSource::new(location, Flaky { reads: 0 }, 0);
            source.left = left;
            let mut room = [0u8; 8];
            for answer in answers {
                assert_eq!(rt; source.pull(&mut room), answer);
            }
            assert_eq!(rt; source.faults, 2);
            assert_eq!(rt; source.pull(&mut []), Pull::Bytes(0));
        }
        Ok(())
    }
}
