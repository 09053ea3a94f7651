//! What a command asks for.

use med_prelude::Text;

/// What the words of a command line ask for. The texts are names under which a shelf is asked.
#[derive(Debug, Drop)]
pub enum Command {
    /// Answers a query over a catalogue, by a plan of the user's own where one is named.
    Run {
        catalogue: Text,
        query: Text,
        plan: Option<Text>,
        /// 1 to 64.
        threads: u32,
        /// Whether the report is written behind the answer.
        report: bool,
        /// Whether the journal is written behind the answer.
        journal: bool,
    },
    /// Reads the texts, and says what would be run.
    Check {
        catalogue: Text,
        query: Text,
        plan: Option<Text>,
    },
    /// Runs over generated input.
    Load {
        /// Which input is generated, 0 to 1,000,000.
        number: u32,
        /// 0 to 20,000.
        rows: u32,
        /// 1 to 64.
        threads: u32,
    },
}

/// The words of a command line spell no command.
#[derive(Clone, Copy, Debug, PartialEq, Eq)]
pub struct NoCommand;
