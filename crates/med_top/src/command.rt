//! What the words of a command line ask for.

ghost use Rattle.std.specs.Prelude.{◌≡◌, option_map};
ghost use Rattle.med_top.specs.Command.{AsksAs, names_in};

use command_line::{Command, read_command};
use med_base::Status;
use med_prelude::{ReadFault, Text};
use std::alloc::Global;
use tuple_core::Words;

/// The names of the texts that a run is over.
#[derive(Drop)]
pub struct RunNames {
    pub catalogue: Text,
    pub query: Text,
}

/// The names of the texts that the words ask to be run, or the status that the call ends with.
pub fn run_names(alloc: Global, words: &Words) -> Result<RunNames, Status>
    ensures { AsksAs words.now result }
{
    match read_command(alloc, words.as_slice()) {
        Ok(command) => built(command).ok_or(Status::NotBuilt { why: 1 }),
        Err(ReadFault::Broken(_)) => Err(Status::Usage),
        Err(ReadFault::NoMemory) => Err(Status::NoMemory),
    }
}

/// The names of a command that is built: a run without plan, report and journal.
fn built(command: Command) -> Option<RunNames>
    ensures { option_map (λ names. (names.catalogue, names.query)) result ≡ names_in command }
{
    match command {
        Command::Run {
            catalogue,
            query,
            plan: None,
            threads: _,
            report: false,
            journal: false,
        } => Some(RunNames { catalogue, query }),
        _ => None,
    }
}
