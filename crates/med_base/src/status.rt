//! How a call of the mediator ends.

ghost use Rattle.std.specs.Prelude.{◌≡◌};
ghost use Rattle.med_base.specs.Statuses.{status_code};

use crate::names::GroupName;

/// A text that is fetched from the shelf.
#[derive(Clone, Copy, Debug, PartialEq, Eq)]
pub enum ShelfFile {
    Catalogue,
    Query,
    Plan,
}

/// A part of a plan, as a refusal names it.
#[derive(Clone, Copy, Debug, PartialEq, Eq)]
pub enum Part {
    Plan,
    Fragment,
    Join,
    Group,
    Rule,
    Atom,
}

/// How a call of the mediator ended. Each refusal is named, with its cause.
#[derive(Clone, Copy, Debug, PartialEq, Eq)]
pub enum Status {
    Done,
    NoMemory,
    /// The words are no command.
    Usage,
    ShelfFault { file: ShelfFile },
    CatalogueRefused { why: u8, relation: u32, item: u32 },
    QueryRefused { why: u8, at: u64 },
    PlanRefused { why: u8, part: Part, item: u32 },
    /// No member of the group can be read to its end any more.
    Starved { group: GroupName },
    RuleError { rule: u32 },
    SpillFault { file: u32 },
    SpillFull { file: u32, need: u64, limit: u64 },
    /// A block of a spill file has other rows than were put.
    Differs { file: u32, kept: u64, found: u64 },
    /// So many rounds in a row brought nothing.
    Stalled { rounds: u64 },
    OutFault,
    /// What is asked for isn't built yet; `why` says which part.
    NotBuilt { why: u8 },
}

impl Status {
    /// The number that the program exits with.
    pub fn code(&self) -> u8
        ensures { result ≡ status_code self.now }
    {
        match self {
            Status::Done => 0,
            Status::NoMemory => 1,
            Status::Usage => 2,
            Status::ShelfFault { .. } => 3,
            Status::CatalogueRefused { .. } => 4,
            Status::QueryRefused { .. } => 5,
            Status::PlanRefused { .. } => 6,
            Status::Starved { .. } => 7,
            Status::RuleError { .. } => 8,
            Status::SpillFault { .. } => 9,
            Status::SpillFull { .. } => 10,
            Status::Differs { .. } => 11,
            Status::Stalled { .. } => 12,
            Status::OutFault => 13,
            Status::NotBuilt { .. } => 14,
        }
    }
}
