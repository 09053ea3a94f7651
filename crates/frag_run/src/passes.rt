//! The passes over a net, one after another.

ghost use Rattle.std.specs.Prelude.{◌≡◌, ◌<◌, ◌≤◌, IfSome, OnOk};
ghost use Rattle.std.specs.List.{AllZip};
ghost use Rattle.med_prelude.specs.Counts.{greatest_count};
ghost use Rattle.step_core.specs.Members.{members_of};
ghost use Rattle.step_core.specs.Passes.{NetIsQuiet};
ghost use Rattle.step_core.specs.Same.{SameOperators};
ghost use Rattle.step_core.specs.Standing.{NetStands};
ghost use Rattle.step_core.specs.Work.{net_left};
ghost use Rattle.frag_run.specs.Ends.{EndsSo, MemberRan};
ghost use Rattle.frag_run.specs.Rounds.{Passes};

use med_base::{GroupName, Source};
use std::alloc::{AllocError, Global};
use step_core::{Net, StepEnd};

/// Why a fragment's run ended.
#[derive(Clone, Copy, Debug, PartialEq, Eq)]
pub enum FragEnd {
    /// All rows were given.
    Finished,
    /// All members of this group failed; it is the first such group, by atom and then by group.
    Starved(GroupName),
    /// In so many passes in a row no member moved.
    Stalled { rounds: u64 },
    NoMemory,
}

/// Runs the net by passes: up to where all rows were given, or a group has only failed members, or so many passes in
/// a row moved nothing. Each way it stands, and can be run on.
pub fn run_passes<S: Source>(alloc: Global, net: &mut Net<S>, limit: u64) -> FragEnd
    requires { 0 < limit }
    ensures stands { NetStands S.Source net.new }
    ensures operators { SameOperators net.old.tree net.new.tree }
    ensures members { AllZip (MemberRan S.Source) (members_of net.old.tree) (members_of net.new.tree) }
    ensures ends { EndsSo limit net.new result }
{
    let Ok(()) = settle(alloc, net) else {
        return FragEnd::NoMemory;
    };
    let mut idle = 0;
    loop {
        let Some(rounds) = pass(alloc, net, idle) else {
            return FragEnd::NoMemory;
        };
        if let Some(group) = net.starved() {
            return FragEnd::Starved(group);
        }
        if net.finished() {
            return FragEnd::Finished;
        }
        if rounds == limit {
            return FragEnd::Stalled { rounds };
        }
        idle = rounds;
    }
}

// One pass, and how many in a row moved nothing then, where so many did before. None where memory ran out.
fn pass<S: Source>(alloc: Global, net: &mut Net<S>, idle: u64) -> Option<u64>
    requires quiet { NetIsQuiet net.old }
    requires few { idle < greatest_count }
    ensures stands { NetStands S.Source net.new }
    ensures operators { SameOperators net.old.tree net.new.tree }
    ensures members { AllZip (MemberRan S.Source) (members_of net.old.tree) (members_of net.new.tree) }
    ensures passes { IfSome result (Passes S.Source net.old net.new idle) }
{
    match net.read_members(alloc) {
        StepEnd::Moved => {}
        StepEnd::Still => return Some(idle + 1),
        StepEnd::NoMemory => return None,
    }
    let Ok(()) = settle(alloc, net) else {
        return None;
    };
    Some(0)
}

// What waits goes on as far as it can.
fn settle<S: Source>(alloc: Global, net: &mut Net<S>) -> Result<(), AllocError>
    ensures stands { NetStands S.Source net.new }
    ensures operators { SameOperators net.old.tree net.new.tree }
    ensures members { members_of net.new.tree ≡ members_of net.old.tree }
    ensures quiet { OnOk result (NetIsQuiet net.new) }
    ensures falls { OnOk result (net_left S.Source net.new ≤ net_left S.Source net.old) }
{
    match net.drain(alloc) {
        StepEnd::Moved => Ok(()),
        StepEnd::Still => Ok(()),
        StepEnd::NoMemory => Err(AllocError),
    }
}
