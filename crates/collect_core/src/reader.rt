//! One source that is read, row by row.

ghost use Rattle.std.specs.Prelude.{◌≡◌, ◌≢◌, ◌^◌, ◌≤◌, [], length, Bool, IfOk, IfSome, Some, None};
ghost use Rattle.med_base.specs.declared.member.MemberState.TheVariants as state;
ghost use Rattle.csv_wrap.specs.Wrapped.{MayPull, SameSource, fault_of};
ghost use Rattle.csv_wrap.specs.Ahead.{HoldsNothing};
ghost use Rattle.collect_core.specs.Members.{member_now_with};
ghost use Rattle.collect_core.specs.Reading.{IsReader, reader_left};
ghost use Rattle.collect_core.specs.Steps.{Falls, ReadsHeld, ReadsOn};
ghost use Rattle.collect_core.specs.Turning.{IsFresh, PullsAs, TakesNext};

use crate::member::MemberNow;
use crate::selection::Selection;
use csv_wrap::{NextRow, Pulled, Wrapper};
use med_base::{MemberFault, MemberState, Source};
use med_prelude::raise;
use std::alloc::{AllocError, Global};
use std::marker::Model;
use tuple_core::{Columns, Row};

/// What a step of a member was.
#[derive(Debug, Drop)]
pub enum Collected {
    /// A row was accepted that the atom selects: these are its values of the atom's variables.
    Row(Row),
    /// A row was accepted that the atom doesn't select, or none was: bytes came, the source told its end, or the
    /// member ended or failed.
    Moved,
    /// There is nothing to do, or nothing is there yet.
    Still,
    /// No row was accepted, and the call may be made again.
    NoMemory,
}

/// A source that is read, and how far that has come.
#[derive(Drop)]
pub struct Reader<S: Source> {
    wrapper: Wrapper<S>,
    // A row that the wrapper gave, and for whose values there was no memory. It isn't accepted yet.
    waiting: Option<Row>,
    accepted: u64,
    state: MemberState,
    fault: Option<MemberFault>,
    // How many of its pulls answered that nothing is there yet.
    waited: u64,
}

impl<S: Source> Model for Reader<S> {
    ghost use Rattle.collect_core.specs.Reading.{Reader};

    ghost Value = { Reader S };

    ghost view = { λ r. record { wrapper = r.wrapper; waiting = r.waiting; accepted = r.accepted; state = r.state; fault = r.fault; waited = r.waited } };
}

impl<S: Source> Reader<S> {
    /// A reader of a fresh source, whose rows have these columns.
    pub(crate) fn new(alloc: Global, source: S, columns: &Columns) -> Result<Self, AllocError>
        requires fresh { IfSome (S.taken source) (λ taken. taken ≡ []) }
        requires calm { S.faults source ≡ 0 }
        requires few { S.left source ≤ 2 ^ 62 }
        requires short { length columns.now ≤ 64 }
        ensures { IfOk result (IsFresh S.Source columns.now source) }
    {
        let wrapper = Wrapper::new(alloc, source, columns)?;
        Ok(Reader {
            wrapper,
            waiting: None,
            accepted: 0,
            state: MemberState::Active,
            fault: None,
            waited: 0,
        })
    }

    /// Accepts the next row that is held. The source isn't pulled.
    pub(crate) fn accept(&mut self, alloc: Global, selection: &Selection) -> Collected
        requires reader { IsReader S.Source self.old }
        requires width { length self.old.wrapper.ahead.columns ≡ length selection.now.terms }
        ensures reader { IsReader S.Source self.new }
        ensures reads { ReadsHeld S.Source selection.now self.old self.new result }
        ensures columns { self.new.wrapper.ahead.columns ≡ self.old.wrapper.ahead.columns }
        ensures source { self.new.wrapper.source ≡ self.old.wrapper.source }
        ensures falls { Falls result (reader_left S.Source self.old) (reader_left S.Source self.new) }
    {
        if self.state != MemberState::Active {
            return Collected::Still;
        }
        match self.next(alloc) {
            NextRow::Row(row) => match selection.select(alloc, row) {
                Ok(Some(values)) => {
                    self.accepted += 1;
                    Collected::Row(values)
                }
                Ok(None) => {
                    self.accepted += 1;
                    Collected::Moved
                }
                Err(row) => {
                    self.waiting = Some(row);
                    Collected::NoMemory
                }
            },
            NextRow::Nothing => Collected::Still,
            NextRow::Failed(fault) => {
                self.state = MemberState::Failed;
                self.fault = Some(fault);
                Collected::Moved
            }
            NextRow::NoMemory => Collected::NoMemory,
        }
    }

    /// Accepts the next row that is held; where none is, pulls the source once.
    pub(crate) fn step(&mut self, alloc: Global, selection: &Selection) -> Collected
        requires reader { IsReader S.Source self.old }
        requires width { length self.old.wrapper.ahead.columns ≡ length selection.now.terms }
        ensures reader { IsReader S.Source self.new }
        ensures reads { ReadsOn S.Source selection.now self.old self.new result }
        ensures columns { self.new.wrapper.ahead.columns ≡ self.old.wrapper.ahead.columns }
        ensures source { SameSource S.Source self.old.wrapper.source self.new.wrapper.source }
        ensures falls { Falls result (reader_left S.Source self.old) (reader_left S.Source self.new) }
    {
        match self.accept(alloc, selection) {
            Collected::Still if self.state == MemberState::Active => self.pull(alloc),
            collected => collected,
        }
    }

    // The row that waits, or the next one that is held.
    fn next(&mut self, alloc: Global) -> NextRow
        requires reader { IsReader S.Source self.old }
        requires active { self.old.state ≡ state.Active }
        ensures { TakesNext S.Source self.old self.new result }
    {
        match self.waiting.take() {
            Some(row) => NextRow::Row(row),
            None => self.wrapper.next_row(alloc),
        }
    }

    // Pulls the source, where nothing is held.
    fn pull(&mut self, alloc: Global) -> Collected
        requires active { self.old.state ≡ state.Active }
        requires fault { self.old.fault ≡ None }
        requires waits { self.old.waiting ≡ None }
        requires holds { HoldsNothing self.old.wrapper.ahead × (fault_of self.old.wrapper ≡ None) }
        ensures { PullsAs S.Source self.old self.new result }
    {
        match self.wrapper.pull_rows(alloc) {
            Pulled::Moved => Collected::Moved,
            Pulled::NotYet => {
                self.waited = raise(self.waited);
                Collected::Still
            }
            Pulled::Ended => {
                self.state = MemberState::Ended;
                Collected::Moved
            }
            Pulled::Failed(fault) => {
                self.state = MemberState::Failed;
                self.fault = Some(fault);
                Collected::Moved
            }
            Pulled::NoMemory => Collected::NoMemory,
        }
    }
    /// How the reading stands.
    pub(crate) fn now(&self) -> MemberNow
        ensures { (opening_failed : Bool) → result ≡ member_now_with opening_failed (Some self.now) }
    {
        MemberNow {
            state: self.state,
            fault: self.fault,
            accepted: self.accepted,
            waited: self.waited,
        }
    }

    pub(crate) fn into_source(self) -> S
        ensures { result ≡ self.wrapper.source }
    {
        self.wrapper.into_source()
    }
}
