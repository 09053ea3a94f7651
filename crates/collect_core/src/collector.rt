//! The collector of an atom: its members, and what it selects of their rows.

ghost use Rattle.std.specs.List.{AllByRecursion, position};
ghost use Rattle.std.specs.Prelude.{◌≡◌, ◌^◌, ◌≤◌, ◌<◌, ◌++◌, List, [], map, replicate, length, slice_get, IfOk, IfSome, IsSomeAnd, OnErr, OnOk, Some};
ghost use Rattle.tuple_core.specs.Values.{RowList};
ghost use Rattle.collect_core.specs.Collecting.{work_left};
ghost use Rattle.collect_core.specs.Giving.{FailsOpening, Gives, IsAt, IsIdleAt};
ghost use Rattle.collect_core.specs.Members.{AreSound, AreTold, AreWithin, HasAccepted, are_settled, end_of, fresh_group, fresh_members, is_named, is_settled, is_starved, member_now, starved_group};
ghost use Rattle.collect_core.specs.Steps.{Falls, Gathers, Steps, StepsHeld};

use crate::member::{Member, MemberNow};
use crate::reader::Collected;
use crate::selection::Selection;
use csv_wrap::{MemberEnd, Members};
use med_base::{GroupName, MemberName, Source};
use std::alloc::{AllocError, Global};
use std::marker::Model;
use tuple_core::{Columns, Text, Words};

/// The members of one atom, by group and mirror.
#[derive(Drop)]
pub struct AtomCollector<S: Source> {
    columns: Columns,
    selection: Selection,
    members: Vec<Member<S>>,
}

impl<S: Source> Model for AtomCollector<S> {
    ghost use Rattle.collect_core.specs.Collecting.{Collecting, IsCollector};

    ghost Value = { Collecting S };

    ghost view = { λ c. record { columns = c.columns; select = c.selection; members = c.members.items } };

    ghost invariant = { λ c. IsCollector S.Source (record { columns = c.columns; select = c.selection; members = c.members.items }) };
}

impl<S: Source> AtomCollector<S> {
    /// The collector of an atom, with the locations of each group's mirrors. None of them was opened.
    pub fn new(
        alloc: Global,
        atom: u32,
        columns: Columns,
        selection: Selection,
        groups: &[Words],
    ) -> Result<Self, AllocError>
        requires width { length columns ≡ length selection.terms }
        requires short { length columns ≤ 64 }
        requires groups { length groups.now ≤ 16 }
        requires mirrors { AllByRecursion (λ mirrors. length mirrors ≤ 8) groups.now }
        ensures new { IfOk result (λ c. c ≡ record { columns = columns; select = selection; members = fresh_members atom 1 groups.now }) }
        ensures accepted { IfOk result (λ c. HasAccepted S.Source c.members (replicate (length c.members) [])) }
        ensures sound { IfOk result (λ c. AreSound S.Source c.columns c.members) }
    {
        let mut members = Vec::new(alloc);
        for (index, mirrors) in groups.iter().enumerate() {
            list_group(
                alloc,
                &mut members,
                atom,
                index as u32 + 1,
                mirrors.as_slice(),
            )?;
        }
        Ok(AtomCollector {
            columns,
            selection,
            members,
        })
    }

    /// How many members there are.
    pub fn len(&self) -> usize
        ensures { result ≡ length self.now.members }
    {
        self.members.len()
    }

    /// The index of the member of that name, if it is there.
    pub fn find(&self, name: MemberName) -> Option<usize>
        ensures { result ≡ position (is_named name) self.now.members }
    {
        self.members.iter().position(|member| member.is_named(name))
    }

    /// How a member stands.
    pub fn member(&self, index: usize) -> MemberNow
        requires { index < length self.now.members }
        ensures now { IsSomeAnd (slice_get self.now.members index) (λ m. result ≡ member_now m) }
        ensures sound { AreSound S.Source self.now.columns self.now.members }
    {
        self.members[index].now()
    }

    /// Where a member's source lies.
    pub fn location(&self, index: usize) -> &str
        requires { index < length self.now.members }
        ensures { IsAt self.now.members index result.now }
    {
        self.members[index].location()
    }

    /// Gives a fresh source to a member that was not opened yet. Where memory runs out, the source is gone.
    pub fn give(&mut self, alloc: Global, index: usize, source: S) -> Result<(), AllocError>
        requires idle { IsIdleAt self.old.members index }
        requires at { IsAt self.old.members index (S.location source) }
        requires fresh { IfSome (S.taken source) (λ taken. taken ≡ []) }
        requires calm { S.faults source ≡ 0 }
        requires few { S.left source ≤ 2 ^ 62 }
        ensures ok { IfOk result (λ _. Gives S.Source self.old self.new index source) }
        ensures err { OnErr result (self.new ≡ self.old) }
        ensures accepted { (accepted : List RowList) → HasAccepted S.Source self.old.members accepted → HasAccepted S.Source self.new.members accepted }
        ensures sound { AreSound S.Source self.new.columns self.new.members }
    {
        self.members[index].give(alloc, source, &self.columns)?;
        Ok(())
    }

    /// A member that was not opened yet couldn't be opened.
    pub fn opening_failed(&mut self, index: usize)
        requires idle { IsIdleAt self.old.members index }
        ensures fails { FailsOpening self.old self.new index }
        ensures accepted { (accepted : List RowList) → HasAccepted S.Source self.old.members accepted → HasAccepted S.Source self.new.members accepted }
        ensures sound { AreSound S.Source self.new.columns self.new.members }
    {
        self.members[index].fail_opening();
    }

    /// Accepts the next row that is held of a member, whose source isn't pulled. It stands still where the member isn't
    /// active, or nothing is held: no row, no fault and no whole frame.
    pub fn accept(&mut self, alloc: Global, index: usize) -> Collected
        requires { index < length self.old.members }
        ensures steps { StepsHeld S.Source self.old self.new index result }
        ensures gathers { (accepted : List RowList) → HasAccepted S.Source self.old.members accepted → Gathers S.Source self.old self.new index result accepted }
        ensures falls { Falls result (work_left S.Source self.old) (work_left S.Source self.new) }
        ensures count { length self.new.members ≡ length self.old.members }
        ensures sound { AreSound S.Source self.new.columns self.new.members }
    {
        self.members[index].accept(alloc, &self.columns, &self.selection)
    }

    /// One step of a member: it accepts the next row that is held; where none is, its source is pulled once.
    pub fn step(&mut self, alloc: Global, index: usize) -> Collected
        requires { index < length self.old.members }
        ensures steps { Steps S.Source self.old self.new index result }
        ensures gathers { (accepted : List RowList) → HasAccepted S.Source self.old.members accepted → Gathers S.Source self.old self.new index result accepted }
        ensures falls { Falls result (work_left S.Source self.old) (work_left S.Source self.new) }
        ensures count { length self.new.members ≡ length self.old.members }
        ensures sound { AreSound S.Source self.new.columns self.new.members }
    {
        self.members[index].step(alloc, &self.columns, &self.selection)
    }

    /// Whether one of the group's members was read cleanly to its end.
    pub fn settled(&self, group: u32) -> bool
        ensures { result ≡ is_settled self.now.members group }
    {
        self.members.iter().any(|member| member.settles(group))
    }

    /// Whether each group is settled.
    pub fn finished(&self) -> bool
        ensures { result ≡ are_settled self.now.members }
    {
        self.members
            .iter()
            .all(|member| self.settled(member.group().group))
    }

    // Whether all of the group's members failed.
    fn is_starved(&self, group: u32) -> bool
        ensures { result ≡ is_starved self.now.members group }
    {
        self.members.iter().all(|member| member.is_lost(group))
    }

    /// The first group whose members all failed.
    pub fn starved(&self) -> Option<GroupName>
        ensures { result ≡ starved_group self.now.members }
    {
        let member = self
            .members
            .iter()
            .find(|member| self.is_starved(member.group().group))?;
        Some(member.group())
    }

    /// What holds of each collector, for callers' proofs. It does nothing.
    pub fn stands(&self)
        ensures sound { AreSound S.Source self.now.columns self.now.members }
        ensures told { (accepted : List RowList) → HasAccepted S.Source self.now.members accepted → AreTold S.Source self.now.columns self.now.members accepted }
        ensures within { (accepted : List RowList) → HasAccepted S.Source self.now.members accepted → AreWithin self.now.columns accepted }
        ensures width { length self.now.columns ≡ length self.now.select.terms }
    {
        let _members = &self.members;
    }

    /// The ends of the members, if the run ends now, by group and mirror. Where memory runs out they are gone.
    pub fn into_ends(self, alloc: Global) -> Result<Members<S>, AllocError>
        ensures ends { IfOk result (λ ends. ends ≡ map end_of self.members) }
        ensures sound { AreSound S.Source self.columns self.members }
    {
        Ok(Members::from_vec(ends_of(alloc, self.members)?))
    }
}

fn ends_of<S: Source>(
    alloc: Global,
    members: Vec<Member<S>>,
) -> Result<Vec<MemberEnd<S>>, AllocError>
    ensures { IfOk result (λ ends. ends.items ≡ map end_of members.items) }
{
    members
        .into_iter()
        .map(|member| member.into_end())
        .collect(alloc)
}

// Lists the members of a group's mirrors behind the others.
fn list_group<S: Source>(
    alloc: Global,
    members: &mut Vec<Member<S>>,
    atom: u32,
    group: u32,
    mirrors: &[Text],
) -> Result<(), AllocError>
    requires { length mirrors.now ≤ 8 }
    ensures { OnOk result (members.new.items ≡ members.old.items ++ fresh_group atom group 1 mirrors.now) }
{
    for (index, location) in mirrors.iter().enumerate() {
        let name = MemberName {
            atom,
            group,
            mirror: index as u32 + 1,
        };
        members.push(Member::new(name, location.clone()?))?;
    }
    Ok(())
}
