//! The call that the program makes.

ghost use Rattle.std.specs.Prelude.{◌≡◌, ◌≢◌, ◌≤◌, ◌++◌, [], ℕ, List};
ghost use Rattle.med_prelude.specs.Texts.{Bytes, ToldBytes};
ghost use Rattle.med_top.specs.Tasks.{IsTaskWithin};
ghost use Rattle.csv_wrap.specs.Sound.{asked_locations, given_marks};
ghost use Rattle.med_top.specs.Command.{names_of};
ghost use Rattle.med_top.specs.Loading.{AsksSome};
ghost use Rattle.med_top.specs.Members.{Change};
ghost use Rattle.med_top.specs.Outcomes.{Accepts, HoldsAt};
ghost use Rattle.med_top.specs.Telling.{Tells};

use crate::atoms::read_atoms;
use crate::command::run_names;
use crate::finish::finish;
use crate::load::load;
use crate::outcome::Outcome;
use crate::task::Task;
use crate::telling::told_status;
use med_base::{Clock, Gate, Opener, Shelf, Sink, SpillSet, Status};
use std::alloc::Global;
use std::thread::Threads;
use tuple_core::Words;

/// Answers the words of a command: fetches the catalogue and the query, reads the groups of each atom's relation,
/// and writes the rows of the answer to `out`. What the user is told of another end goes to `err`. The runtime is
/// that which `main` is given. Spill files, clock and gate aren't used yet.
pub fn mediate<
    R: Threads + Sync,
    H: Shelf,
    O: Opener,
    P: SpillSet,
    C: Clock,
    W: Sink,
    E: Sink,
    G: Gate + Sync,
>(
    _rt: &R,
    alloc: Global,
    words: &Words,
    shelf: &mut H,
    opener: &mut O,
    _spills: &mut P,
    _clock: &mut C,
    _gate: &G,
    out: &mut W,
    err: &mut E,
) -> Outcome<O::S, P::F>
    ensures outcome { HoldsAt (record {
      source = O.S.Source;
      words = words.now;
      texts = H.told shelf.old;
      sources = O.told opener.old;
      opener_faults = record { old = O.faults opener.old; new = O.faults opener.new };
      shelf_faults = record { old = H.faults shelf.old; new = H.faults shelf.new };
      shelf_asked = record { old = H.asked shelf.old; new = H.asked shelf.new };
      written = record { old = W.written out.old; new = W.written out.new };
      out_faults = record { old = W.faults out.old; new = W.faults out.new };
      members = result.members;
    }) result.status }
    ensures asked { AsksSome (names_of words.now) (record { old = H.asked shelf.old; new = H.asked shelf.new }) }
    ensures opened { result.status ≢ Status.NoMemory → O.asked opener.new ≡ O.asked opener.old ++ asked_locations result.members }
    ensures given { result.status ≢ Status.NoMemory → O.given opener.new ≡ O.given opener.old ++ given_marks O.S.Source result.members }
    ensures files { result.files ≡ [] }
    ensures spills { P.asked _spills.new ≡ P.asked _spills.old }
    ensures clock { C.last _clock.new ≡ C.last _clock.old }
    ensures told { result.status ≢ Status.NoMemory → Tells (record { old = E.written err.old; new = E.written err.new }) (record { old = E.faults err.old; new = E.faults err.new }) result.status }
{
    let outcome = run(alloc, words, shelf, opener, out);
    Outcome {
        status: told_status(alloc, err, outcome.status),
        members: outcome.members,
        files: outcome.files,
    }
}

/// Does what the words ask for. Nothing is said of how that ended.
fn run<H: Shelf, O: Opener, F, W: Sink>(
    alloc: Global,
    words: &Words,
    shelf: &mut H,
    opener: &mut O,
    out: &mut W,
) -> Outcome<O::S, F>
    ensures outcome { HoldsAt (record {
      source = O.S.Source;
      words = words.now;
      texts = H.told shelf.old;
      sources = O.told opener.old;
      opener_faults = record { old = O.faults opener.old; new = O.faults opener.new };
      shelf_faults = record { old = H.faults shelf.old; new = H.faults shelf.new };
      shelf_asked = record { old = H.asked shelf.old; new = H.asked shelf.new };
      written = record { old = W.written out.old; new = W.written out.new };
      out_faults = record { old = W.faults out.old; new = W.faults out.new };
      members = result.members;
    }) result.status }
    ensures asked { AsksSome (names_of words.now) (record { old = H.asked shelf.old; new = H.asked shelf.new }) }
    ensures opened { result.status ≢ Status.NoMemory → O.asked opener.new ≡ O.asked opener.old ++ asked_locations result.members }
    ensures given { result.status ≢ Status.NoMemory → O.given opener.new ≡ O.given opener.old ++ given_marks O.S.Source result.members }
    ensures files { result.files ≡ [] }
{
    let names = match run_names(alloc, words) {
        Ok(names) => names,
        Err(status) => return Outcome::without_run(alloc, status),
    };
    match load(alloc, shelf, names.catalogue.as_str(), names.query.as_str()) {
        Ok(task) => answer(alloc, opener, out, task),
        Err(status) => Outcome::without_run(alloc, status),
    }
}

/// Reads what the atoms ask for, and writes the answer.
fn answer<O: Opener, F, W: Sink>(
    alloc: Global,
    opener: &mut O,
    out: &mut W,
    task: Task,
) -> Outcome<O::S, F>
    requires { IsTaskWithin task }
    ensures outcome { (words : List Bytes) (texts : Bytes → ToldBytes) (shelf_faults : Change ℕ) (shelf_asked : Change (List Bytes))
        → Accepts words texts task
        → HoldsAt (record {
          source = O.S.Source;
          words = words;
          texts = texts;
          sources = O.told opener.old;
          opener_faults = record { old = O.faults opener.old; new = O.faults opener.new };
          shelf_faults = shelf_faults;
          shelf_asked = shelf_asked;
          written = record { old = W.written out.old; new = W.written out.new };
          out_faults = record { old = W.faults out.old; new = W.faults out.new };
          members = result.members;
        }) result.status }
    ensures opened { result.status ≢ Status.NoMemory → O.asked opener.new ≡ O.asked opener.old ++ asked_locations result.members }
    ensures given { result.status ≢ Status.NoMemory → O.given opener.new ≡ O.given opener.old ++ given_marks O.S.Source result.members }
    ensures files { result.files ≡ [] }
{
    match read_atoms(alloc, opener, task.targets.as_slice()) {
        Ok(read) => {
            let status = finish(alloc, out, &task.query, read.arrivals, read.end);
            Outcome::without_files(alloc, status, read.members)
        }
        Err(_) => Outcome::without_run(alloc, Status::NoMemory),
    }
}
