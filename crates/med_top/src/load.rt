//! Loads what a command names: the catalogue, the query, and what is read for each of its atoms.

ghost use Rattle.std.specs.Prelude.{◌≡◌, ◌≤◌, [], ◌∷◌, ◌++◌, IfOk, IfErr, OnOk};
ghost use Rattle.med_base.specs.Outside.{IsFetched};
ghost use Rattle.med_top.specs.Loading.{AsksSome, FailsToFetch, IfShelfFails, Loads};
ghost use Rattle.med_top.specs.Tasks.{IsTaskWithin};

use crate::task::{Task, catalogue_in, task_in};
use med_base::{FetchFault, Shelf, ShelfFile, Status};
use std::alloc::Global;

/// Fetches the catalogue and then the query, each once, and reads them. Where that gives nothing to run, the answer is
/// the status that the call ends with.
pub fn load<H: Shelf>(
    alloc: Global,
    shelf: &mut H,
    catalogue: &str,
    query: &str,
) -> Result<Task, Status>
    ensures within { IfOk result IsTaskWithin }
    ensures loads { Loads (H.told shelf.old catalogue.now) (H.told shelf.old query.now) result }
    ensures told { H.told shelf.new ≡ H.told shelf.old }
    ensures asked { AsksSome (catalogue.now ∷ query.now ∷ []) (record { old = H.asked shelf.old; new = H.asked shelf.new }) }
    ensures fails { IfShelfFails catalogue.now query.now (record { old = H.faults shelf.old; new = H.faults shelf.new }) (record { old = H.asked shelf.old; new = H.asked shelf.new }) result }
{
    let text = fetch(alloc, shelf, catalogue, ShelfFile::Catalogue)?;
    let relations = catalogue_in(alloc, text.as_slice())?;
    let text = fetch(alloc, shelf, query, ShelfFile::Query)?;
    task_in(alloc, &relations, text.as_slice())
}

/// The text of that name, which is the one that a fault of the shelf names.
fn fetch<H: Shelf>(
    alloc: Global,
    shelf: &mut H,
    name: &str,
    file: ShelfFile,
) -> Result<Vec<u8>, Status>
    ensures text { IfOk result (λ text. IsFetched (H.told shelf.old name.now) text.items) }
    ensures fails { IfErr result (λ status. FailsToFetch file name.now (record { old = H.faults shelf.old; new = H.faults shelf.new }) (record { old = H.asked shelf.old; new = H.asked shelf.new }) status) }
    ensures told { H.told shelf.new ≡ H.told shelf.old }
    ensures asked { OnOk result (H.asked shelf.new ≡ H.asked shelf.old ++ name.now ∷ []) }
    ensures faults { H.faults shelf.old ≤ H.faults shelf.new }
{
    match shelf.fetch(alloc, name) {
        Ok(text) => Ok(text),
        Err(FetchFault::Failed) => Err(Status::ShelfFault { file }),
        Err(FetchFault::NoMemory) => Err(Status::NoMemory),
    }
}
