//! A member of an atom, and how it stands.

ghost use Rattle.std.specs.Prelude.{◌≡◌, ◌^◌, ◌≤◌, ◌&&◌, ◌||◌, not, [], length, IfOk, IfSome, OnErr, None, false, true};
ghost use Rattle.collect_core.specs.Giving.{GivesMember};
ghost use Rattle.collect_core.specs.Members.{IsMember, end_of, fresh_member, group_of, is_ended, is_failed, is_in, is_named, member_left, member_now, unopened_now};
ghost use Rattle.collect_core.specs.Steps.{AcceptsHeld, Falls, StepsMember};

use crate::reader::{Collected, Reader};
use crate::selection::Selection;
use csv_wrap::MemberEnd;
use med_base::{GroupName, MemberFault, MemberName, MemberState, Source};
use std::alloc::{AllocError, Global};
use std::marker::Model;
use tuple_core::{Columns, Text};

/// How a member stands at present.
#[derive(Clone, Copy, Debug, PartialEq, Eq)]
pub struct MemberNow {
    pub state: MemberState,
    pub fault: Option<MemberFault>,
    /// How many of its rows were accepted.
    pub accepted: u64,
    /// How many of its pulls answered that nothing is there yet.
    pub waited: u64,
}

/// One mirror of one group of the atom.
#[derive(Drop)]
pub struct Member<S: Source> {
    name: MemberName,
    location: Text,
    opening_failed: bool,
    // There is none where the member was never opened, or its opening failed.
    reader: Option<Reader<S>>,
}

impl<S: Source> Model for Member<S> {
    ghost use Rattle.collect_core.specs.Members.{Member};

    ghost Value = { Member S };

    ghost view = { λ m. record { name = m.name; location = m.location; opening_failed = m.opening_failed; reader = m.reader } };
}

impl<S: Source> Member<S> {
    /// A member that was never opened.
    pub(crate) fn new(name: MemberName, location: Text) -> Self
        ensures { result ≡ fresh_member name.atom name.group name.mirror location }
    {
        Member {
            name,
            location,
            opening_failed: false,
            reader: None,
        }
    }

    /// How the member stands.
    pub(crate) fn now(&self) -> MemberNow
        ensures { result ≡ member_now self.now }
    {
        match &self.reader {
            Some(reader) => reader.now(),
            None => unopened(self.opening_failed),
        }
    }

    pub(crate) fn is_named(&self, name: MemberName) -> bool
        ensures { result ≡ is_named name self.now }
    {
        self.name.group == name.group
            && self.name.mirror == name.mirror
            && self.name.atom == name.atom
    }

    /// Where its source lies.
    pub(crate) fn location(&self) -> &str
        ensures { result.now ≡ self.now.location }
    {
        self.location.as_str()
    }

    pub(crate) fn group(&self) -> GroupName
        ensures { result ≡ group_of self.now }
    {
        GroupName {
            atom: self.name.atom,
            group: self.name.group,
        }
    }

    /// Whether it settles the group.
    pub(crate) fn settles(&self, group: u32) -> bool
        ensures { result ≡ (is_in group self.now && is_ended (member_now self.now).state) }
    {
        self.name.group == group && matches!(self.now().state, MemberState::Ended)
    }

    /// Whether it is of no use to the group: of another one, or failed.
    pub(crate) fn is_lost(&self, group: u32) -> bool
        ensures { result ≡ (not (is_in group self.now) || is_failed (member_now self.now).state) }
    {
        self.name.group != group || matches!(self.now().state, MemberState::Failed)
    }

    /// Gives it a fresh source, opened at its location. Where memory runs out the source is gone, and the member is
    /// as it was.
    pub(crate) fn give(
        &mut self,
        alloc: Global,
        source: S,
        columns: &Columns,
    ) -> Result<(), AllocError>
        requires fresh { IfSome (S.taken source) (λ taken. taken ≡ []) }
        requires calm { S.faults source ≡ 0 }
        requires few { S.left source ≤ 2 ^ 62 }
        requires short { length columns.now ≤ 64 }
        ensures ok { IfOk result (λ _. GivesMember S.Source columns.now source self.old self.new) }
        ensures err { OnErr result (self.new ≡ self.old) }
    {
        self.reader = Some(Reader::new(alloc, source, columns)?);
        Ok(())
    }

    pub(crate) fn fail_opening(&mut self)
        ensures { self.new ≡ record self.old { opening_failed = true } }
    {
        self.opening_failed = true;
    }

    /// Accepts the next row that is held of its source, which isn't pulled.
    pub(crate) fn accept(
        &mut self,
        alloc: Global,
        columns: &Columns,
        selection: &Selection,
    ) -> Collected
        requires member { IsMember S.Source columns.now self.old }
        requires width { length columns.now ≡ length selection.now.terms }
        ensures member { IsMember S.Source columns.now self.new }
        ensures steps { AcceptsHeld S.Source selection.now self.old self.new result }
        ensures falls { Falls result (member_left S.Source self.old) (member_left S.Source self.new) }
    {
        match &mut self.reader {
            Some(reader) => reader.accept(alloc, selection),
            None => Collected::Still,
        }
    }

    /// One step of the reading of its source.
    pub(crate) fn step(
        &mut self,
        alloc: Global,
        columns: &Columns,
        selection: &Selection,
    ) -> Collected
        requires member { IsMember S.Source columns.now self.old }
        requires width { length columns.now ≡ length selection.now.terms }
        ensures member { IsMember S.Source columns.now self.new }
        ensures steps { StepsMember S.Source selection.now self.old self.new result }
        ensures falls { Falls result (member_left S.Source self.old) (member_left S.Source self.new) }
    {
        match &mut self.reader {
            Some(reader) => reader.step(alloc, selection),
            None => Collected::Still,
        }
    }

    /// The member's end, if the run ends now.
    pub(crate) fn into_end(self) -> MemberEnd<S>
        ensures { result ≡ end_of self }
    {
        let now = self.now();
        MemberEnd {
            name: self.name,
            location: self.location,
            state: now.state,
            fault: now.fault,
            accepted: now.accepted,
            source: self.reader.map(|reader| reader.into_source()),
        }
    }
}

// How a member without a source stands.
fn unopened(opening_failed: bool) -> MemberNow
    ensures { result ≡ unopened_now opening_failed }
{
    let (state, fault) = if opening_failed {
        (MemberState::Failed, Some(MemberFault::Opening))
    } else {
        (MemberState::Idle, None)
    };
    MemberNow {
        state,
        fault,
        accepted: 0,
        waited: 0,
    }
}
