//! Reads the groups of an atom one after the other, each one's mirror to its end.

ghost use Rattle.std.specs.List.{AllByRecursion};
ghost use Rattle.std.specs.Prelude.{◌≡◌, ◌+◌, ◌≤◌, ◌<◌, ◌++◌, ◌∷◌, [], IfOk, OnOk, length};
ghost use Rattle.csv_wrap.specs.Sound.{asked_locations, given_marks};
ghost use Rattle.med_top.specs.Targets.{IsTargetWithin};
ghost use Rattle.med_top.specs.Members.{Advances, AreMembers, EndsRun, IsIdle, idle_member, member_of};

use crate::member::read_member;
use crate::target::Target;
use csv_wrap::{MemberEnd, Members};
use med_base::{GroupName, MemberName, MemberState, Opener};
use row_pages::Rows;
use std::alloc::{AllocError, Global};
use tuple_core::{Columns, Text};

/// How the run of members ended.
#[derive(Clone, Copy, Debug, PartialEq, Eq)]
pub enum RunEnd {
    /// Each group has a mirror that was read cleanly to its end.
    Settled,
    /// The one mirror of this group failed.
    Starved(GroupName),
    /// A source answered `IDLE_LIMIT` times in a row that nothing is there yet.
    Stalled,
}

/// The members of the groups so far, their rows, and how the run stands.
#[derive(Drop)]
pub struct GroupsRead<S> {
    pub members: Members<S>,
    pub rows: Rows,
    pub end: RunEnd,
}

/// Reads each group's mirror for an atom, up to the first that isn't read to its end. Behind a run that has ended
/// none is opened.
pub fn read_groups<O: Opener>(
    alloc: Global,
    opener: &mut O,
    target: &Target,
    atom: u32,
    end: RunEnd,
) -> Result<GroupsRead<O::S>, AllocError>
    requires within { IsTargetWithin target.now }
    ensures members { IfOk result (λ read. AreMembers O.S.Source target.now.columns (O.told opener.old) atom 1 target.now.locations read.members) }
    ensures ends { IfOk result (λ read. end ≡ RunEnd.Settled → EndsRun O.S.Source target.now.columns (O.faults opener.old) (O.faults opener.new) read.members read.rows read.end) }
    ensures stays { IfOk result (λ read. (end ≡ RunEnd.Settled → ⊥) → AllByRecursion IsIdle read.members × (read.end ≡ end)) }
    ensures asked { IfOk result (λ read. O.asked opener.new ≡ O.asked opener.old ++ asked_locations read.members) }
    ensures given { IfOk result (λ read. O.given opener.new ≡ O.given opener.old ++ given_marks O.S.Source read.members) }
    ensures faults { O.faults opener.old ≤ O.faults opener.new }
    ensures told { O.told opener.new ≡ O.told opener.old }
{
    let mut read = GroupsRead {
        members: Members::new(alloc),
        rows: Rows::new(alloc),
        end,
    };
    for (index, location) in target.locations.as_slice().iter().enumerate() {
        read_next(
            alloc,
            opener,
            &mut read,
            &target.columns,
            name_of(atom, index),
            location,
        )?;
    }
    Ok(read)
}

/// The one mirror of the group at a position.
fn name_of(atom: u32, index: usize) -> MemberName
    requires { index < 16 }
    ensures { result ≡ member_of atom (index + 1) }
{
    MemberName {
        atom,
        group: index as u32 + 1,
        mirror: 1,
    }
}

/// Reads the next group's mirror where all before it were read to their ends, and else leaves it alone.
fn read_next<O: Opener>(
    alloc: Global,
    opener: &mut O,
    read: &mut GroupsRead<O::S>,
    columns: &Columns,
    name: MemberName,
    location: &Text,
) -> Result<(), AllocError>
    requires width { length columns.now ≤ 16 }
    requires name { name ≡ member_of name.atom name.group }
    ensures advances { OnOk result (Advances O.S.Source columns.now (O.told opener.old) name.atom name.group location.now (record {
      faults = record { old = O.faults opener.old; new = O.faults opener.new };
      asked = record { old = O.asked opener.old; new = O.asked opener.new };
      given = record { old = O.given opener.old; new = O.given opener.new };
    }) read.old read.new) }
    ensures faults { O.faults opener.old ≤ O.faults opener.new }
    ensures told { O.told opener.new ≡ O.told opener.old }
{
    let location = Text::from_str(alloc, location.as_str())?;
    match read.end {
        RunEnd::Settled => open_next(alloc, opener, read, columns, name, location),
        RunEnd::Starved(_) => read.leave_next(name, location),
        RunEnd::Stalled => read.leave_next(name, location),
    }
}

/// Reads the next group's mirror, behind members that were all read to their ends.
fn open_next<O: Opener>(
    alloc: Global,
    opener: &mut O,
    read: &mut GroupsRead<O::S>,
    columns: &Columns,
    name: MemberName,
    location: Text,
) -> Result<(), AllocError>
    requires width { length columns.now ≤ 16 }
    requires name { name ≡ member_of name.atom name.group }
    requires settled { read.old.end ≡ RunEnd.Settled }
    ensures advances { OnOk result (Advances O.S.Source columns.now (O.told opener.old) name.atom name.group location (record {
      faults = record { old = O.faults opener.old; new = O.faults opener.new };
      asked = record { old = O.asked opener.old; new = O.asked opener.new };
      given = record { old = O.given opener.old; new = O.given opener.new };
    }) read.old read.new) }
    ensures faults { O.faults opener.old ≤ O.faults opener.new }
    ensures told { O.told opener.new ≡ O.told opener.old }
{
    let ran = read_member(alloc, opener, columns, name, location, &mut read.rows)?;
    read.end = ran.end;
    read.members.push(ran.member)?;
    Ok(())
}

impl<S: Drop> GroupsRead<S> {
    /// Lists the next member as one that was never opened.
    fn leave_next(&mut self, name: MemberName, location: Text) -> Result<(), AllocError>
        ensures members { OnOk result (self.new.members ≡ self.old.members ++ idle_member name location ∷ []) }
        ensures rows { self.new.rows ≡ self.old.rows }
        ensures end { self.new.end ≡ self.old.end }
    {
        self.members.push(MemberEnd {
            name,
            location,
            state: MemberState::Idle,
            fault: None,
            accepted: 0,
            source: None,
        })?;
        Ok(())
    }
}
