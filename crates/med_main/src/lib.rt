//! The program as a library: it makes the real objects of the outside, calls the mediator, and gives the number that the
//! process ends with.
//!
//! [`exit_code`] is all that a program's `main` calls. It takes the words of the command line, makes shelf, opener, spill
//! files, clock and output over the real machine (`real_outside`), makes the one call `med_top::mediate`, and gives its
//! status as an exit code ([`code_of`]). The call tells the user of each status but want of memory, which is told here.
//! The promises of the program are that call's contract; this crate adds none but that the exit code is the status's
//! number.
#![tactic(auto)]

ghost use Rattle.std.specs.Prelude.{◌≡◌};
ghost use Rattle.std.specs.Process.{exit_status};
ghost use Rattle.med_base.specs.Statuses.{status_code};

use med_base::{NoGate, Sink, Status};
use med_top::mediate;
use out_text::write_fault;
use real_outside::{FileOpener, FileShelf, FileSpills, RealClock, StdSink, spill_folder};
use std::alloc::AllocError;
use std::os::unix::fs::FileExt;
use std::process::ExitCode;
use std::rt::{Clock, Env, Files};
use std::thread::Threads;
use std::{env, io};
use tuple_core::{Text, Words};

/// The words after the program's name. Arguments that aren't UTF-8 are no command, so they count as no words.
fn words_of<R: Env + AllocGlobal>(rt: &R) -> Result<Words, AllocError> {
    let mut words = Words::new(rt.alloc());
    match env::args(rt) {
        Ok(arguments) => {
            for argument in arguments.skip(1) {
                words.push(Text::new(argument))?;
            }
        }
        Err(error) if error.kind() == io::ErrorKind::OutOfMemory => return Err(AllocError),
        Err(_) => {}
    }
    Ok(words)
}

fn run<R: Threads + Sync + AllocGlobal + Env + Files + Clock + Print, E: Sink>(
    rt: &R,
    err: &mut E,
) -> Status
where
    R::File: Send + FileExt,
{
    let Ok(words) = words_of(rt) else {
        return Status::NoMemory;
    };
    let Ok(folder) = spill_folder(rt) else {
        return Status::NoMemory;
    };
    let mut shelf = FileShelf::new(rt.alloc(), rt);
    let mut opener = FileOpener::new(rt.alloc(), rt);
    let mut spills = FileSpills::new(rt.alloc(), rt, folder);
    let mut clock = RealClock::new(rt);
    let mut out = StdSink::new(io::writer(rt));
    mediate(
        rt,
        rt.alloc(),
        &words,
        &mut shelf,
        &mut opener,
        &mut spills,
        &mut clock,
        &NoGate,
        &mut out,
        err,
    )
    .status
}

/// The exit code of a status: its number.
pub fn code_of(status: Status) -> ExitCode
    ensures { exit_status result ≡ status_code status }
{
    ExitCode::from(status.code())
}

/// Runs the command that the process was started with, and gives the code that it is to end with. `err` is where
/// messages go.
pub fn exit_code<R: Threads + Sync + AllocGlobal + Env + Files + Clock + Print, E: Sink>(
    rt: &R,
    err: &mut E,
) -> ExitCode
where
    R::File: Send + FileExt,
{
    let status = run(rt, err);
    if status == Status::NoMemory {
        let _ = write_fault(rt.alloc(), &status, err);
    }
    code_of(status)
}
