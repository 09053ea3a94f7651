//! A shelf whose names are paths of files.

ghost use Rattle.std.specs.Prelude.{◌≡◌, ◌≤◌, [], length, take, None, IfOk, IfSome};
ghost use Rattle.med_base.specs.Outside.{most_fetched};

use med_base::bookkeeping::{fault_of, note_asked};
use med_base::{FETCHED_MOST, FetchFault, Shelf};
use med_prelude::{Listed, Text};
use std::alloc::Global;
use std::io::Read;
use std::rt::Files;
use std::{fs, io};

/// A shelf of files. It tells no text.
#[derive(Drop)]
pub struct FileShelf<'a, R: Files> {
    rt: &'a R,
    asked: Listed<Text>,
    faults: u64,
}

impl<'a, R: Files> FileShelf<'a, R> {
    /// A shelf that wasn't asked for anything yet.
    pub fn new(alloc: Global, rt: &'a R) -> Self
        ensures told { ⟦<FileShelf<'a, R> as Shelf>⟧.told result ≡ (λ _. None) }
        ensures faults { ⟦<FileShelf<'a, R> as Shelf>⟧.faults result ≡ 0 }
        ensures asked { ⟦<FileShelf<'a, R> as Shelf>⟧.asked result ≡ [] }
    {
        FileShelf {
            rt,
            asked: Listed::new(alloc),
            faults: 0,
        }
    }
}

impl<'a, R: Files> Shelf for FileShelf<'a, R> {
    ghost told = { λ _ _. None };

    ghost faults = { λ s. s.faults };

    ghost asked = { λ s. s.asked };

    fn fetch(&mut self, alloc: Global, name: &str) -> Result<Vec<u8>, FetchFault> {
        note_asked(alloc, &mut self.asked, name)?;
        match read_file(self.rt, alloc, name) {
            Ok(bytes) => Ok(bytes),
            Err(error) => Err(fault_of(error, &mut self.faults)),
        }
    }
}

/// The first bytes of a file, as many as a fetch gives.
fn read_file<R: Files>(rt: &R, alloc: Global, path: &str) -> io::Result<Vec<u8>>
    ensures { IfOk result (λ bytes. length bytes.items ≤ most_fetched) }
{
    read_first(alloc, fs::open(rt, path)?)
}

/// The first bytes of a reader, as many as a fetch gives.
fn read_first<F: Read + Drop>(alloc: Global, reader: F) -> io::Result<Vec<u8>>
    ensures short { IfOk result (λ bytes. length bytes.items ≤ most_fetched) }
    ensures known { IfOk result (λ bytes. IfSome (F.remaining reader) (λ text. bytes.items ≡ take most_fetched text)) }
{
    let mut bytes = Vec::new(alloc);
    reader.take(FETCHED_MOST as u64).read_to_end(&mut bytes)?;
    bytes.truncate(FETCHED_MOST);
    Ok(bytes)
}
