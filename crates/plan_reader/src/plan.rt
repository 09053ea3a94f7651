//! What a plan is, and how its text is refused.

ghost use Rattle.plan_reader.specs.Faults.{greatest_told};
ghost use Rattle.std.specs.Prelude.{◌≡◌, min};

use crate::location::Location;
use join_trees::Tree;
use med_base::{GroupName, Part};
use med_prelude::{Listed, Text};
use rule_reader::Method;
use std::alloc::AllocError;
use text_reading::Broken;
use thiserror::Error;

/// Which mirrors of a group are read, and when.
#[derive(Clone, Copy, Debug, PartialEq, Eq)]
pub enum Policy {
    /// The first one alone.
    Only,
    /// The first one, and the next one where one fails.
    First,
    /// All of them.
    All,
    /// All of them, until one gave so many rows.
    Race(u64),
}

/// When the rest of a plan is made anew after a fragment.
#[derive(Clone, Copy, Debug, PartialEq, Eq)]
pub enum Replan {
    Never,
    Always,
    /// Where the fragment gave so many times fewer or more rows than it was taken to give.
    Off(u64),
}

/// A part of a plan that runs as a whole.
#[derive(Debug, Drop)]
pub struct Fragment {
    /// The number of its name.
    pub number: u32,
    pub tree: Tree,
    /// How many rows it is taken to give.
    pub estimate: Option<u64>,
    /// The fragments that it names as those to run before it, which is checked and orders nothing.
    pub after: Listed<u32>,
}

/// What a plan says of a join.
#[derive(Clone, Copy, Debug, PartialEq, Eq)]
pub struct JoinSetting {
    pub join: u32,
    /// The plan's method where none is given.
    pub method: Option<Method>,
    /// In bytes; the plan's memory where none is given.
    pub quota: Option<u64>,
}

/// What a plan says of a group.
#[derive(Clone, Copy, Debug, PartialEq, Eq)]
pub struct GroupSetting {
    pub group: GroupName,
    /// The plan's policy where none is given.
    pub policy: Option<Policy>,
}

/// A rule as it is written: its name and its text.
#[derive(Debug, Drop)]
pub struct WrittenRule {
    pub name: Text,
    pub text: Text,
}

/// A plan: how a query is cut into fragments and joined.
#[derive(Debug, Drop)]
pub struct Plan {
    /// Into how many buckets each side of a join is parted: 16, 64 or 256.
    pub buckets: u64,
    /// For all joins of a fragment together, in bytes.
    pub memory: u64,
    /// How a join makes room where none is left.
    pub method: Method,
    /// The greatest length of a spill file, in bytes.
    pub spill_limit: u64,
    /// So many rounds in a row that bring nothing end the run.
    pub idle_limit: u64,
    pub policy: Policy,
    pub replan: Replan,
    /// In the order in which they run; none where the plan leaves that to the mediator.
    pub fragments: Listed<Fragment>,
    /// In the order of their keys' bytes.
    pub joins: Listed<JoinSetting>,
    /// In the order of their keys' bytes.
    pub groups: Listed<GroupSetting>,
    pub rules: Listed<WrittenRule>,
}

/// Why a text gave no plan.
#[derive(Clone, Copy, Debug, PartialEq, Eq, Error)]
pub enum PlanFault {
    /// `why` is the number of the first check that is broken, `part` and `item` say where: the index of the fragment, of
    /// the atom or of the rule, or that of the join or the group in the order of their keys' bytes; 0 where the fault is
    /// of the plan as a whole. The greatest number stands for all greater ones.
    #[error("the plan is refused: check {why}, {part:?} {item}")]
    Refused { why: u8, part: Part, item: u32 },
    #[error("out of memory")]
    NoMemory,
}

impl From<Broken<Location>> for PlanFault {
    ghost use Rattle.plan_reader.specs.Faults.{fault_of};

    ghost from_gives = { λ broken fault. fault ≡ fault_of broken };

    fn from(broken: Broken<Location>) -> PlanFault {
        PlanFault::Refused {
            why: broken.why,
            part: broken.at.part,
            item: capped(broken.at.item),
        }
    }
}

/// The number that is told of an index.
fn capped(index: usize) -> u32
    ensures { result ≡ min index greatest_told }
{
    index.min(u32::MAX as usize) as u32
}

impl From<AllocError> for PlanFault {
    ghost use Rattle.plan_reader.specs.declared.plan.PlanFault.TheVariants.{NoMemory};

    ghost from_gives = { λ _ fault. fault ≡ NoMemory };

    fn from(_: AllocError) -> PlanFault {
        PlanFault::NoMemory
    }
}
