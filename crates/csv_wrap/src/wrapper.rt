//! The rows of a source, as its bytes come.

ghost use Rattle.std.specs.Prelude.{◌≡◌, ◌+◌, ◌<◌, ◌≤◌, ◌^◌, ◌++◌, [], length, false, true, take, Some, None, IfOk, IfSome, IfNone, OnOk, OnErr, option_to_list};
ghost use Rattle.med_base.specs.declared.member.MemberState.TheVariants as state;
ghost use Rattle.tuple_core.specs.Values.{RowList};
ghost use Rattle.csv_frame.specs.Holding.{HoldsNone};
ghost use Rattle.csv_wrap.specs.Ahead.{HoldsNothing, IsReadAhead, KeepsFuture};
ghost use Rattle.csv_wrap.specs.Pulls.{AnswersOnePull, AsksSource, ComesOfOnePull, CountsWaits, LeavesSource, MovesBy};
ghost use Rattle.csv_wrap.specs.Wrapped.{AcceptedAs, CameAs, FillsColumns, HasGiven, IsEnd, IsLast, IsNext, IsPulled, IsWrapped, MayPull, SameSource, SoundAs, StaysNext, StaysPulled, Wrapped, fault_of, row_of};

use crate::ahead::{AtEnd, ReadAhead};
use med_base::{MemberFault, Pull, Source};
use std::alloc::{AllocError, Global};
use std::marker::Model;
use tuple_core::{Columns, Row};

/// The most bytes of a pull.
const PULLED_MOST: usize = 8_192;

/// What a pull of rows did.
#[derive(Debug, PartialEq, Eq)]
pub enum Pulled {
    /// There may be rows now.
    Moved,
    NotYet,
    Ended,
    Failed(MemberFault),
    NoMemory,
}

/// The next row that is held.
#[derive(Debug, Drop)]
pub enum NextRow {
    Row(Row),
    /// No whole frame is held.
    Nothing,
    Failed(MemberFault),
    NoMemory,
}

// What a pull of bytes did.
enum Came {
    Bytes,
    NotYet,
    End,
    Failed,
}

/// A source with the rows that its bytes hold. Callers take rows until there is nothing, and pull then.
#[derive(Drop)]
pub struct Wrapper<S: Source> {
    source: S,
    ahead: ReadAhead,
    room: Vec<u8>,
    // How many bytes at the start of the room were pulled and not yet fed.
    kept: usize,
    failed: bool,
    accepted: u64,
}

impl<S: Source> Model for Wrapper<S> {
    ghost use Rattle.std.specs.Prelude.{◌≡◌, ◌≤◌, length, take};
    ghost use Rattle.csv_wrap.specs.Wrapped.{IsWrapped, Wrapped};

    ghost Value = { Wrapped S };

    ghost view = { λ w. record { source = w.source; ahead = w.ahead; kept = take w.kept w.room.items; failed = w.failed; accepted = w.accepted } };

    ghost invariant = { λ w. (length w.room.items ≡ 8192) × (w.kept ≤ 8192) × IsWrapped S.Source (record { source = w.source; ahead = w.ahead; kept = take w.kept w.room.items; failed = w.failed; accepted = w.accepted }) };
}

impl<S: Source> Wrapper<S> {
    /// A wrapper of a fresh source, whose rows have these columns.
    pub fn new(alloc: Global, source: S, columns: &Columns) -> Result<Self, AllocError>
        requires fresh { IfSome (S.taken source) (λ taken. taken ≡ []) }
        requires calm { S.faults source ≡ 0 }
        requires few { S.left source ≤ 2 ^ 62 }
        requires short { length columns.now ≤ 64 }
        ensures source { IfOk result (λ w. w.source ≡ source) }
        ensures columns { IfOk result (λ w. w.ahead.columns ≡ columns.now) }
        ensures accepted { IfOk result (λ w. w.accepted ≡ 0) }
        ensures nothing { IfOk result (λ w. HoldsNothing w.ahead × (fault_of w ≡ None) × (w.kept ≡ [])) }
        ensures gave { IfOk result (λ w. HasGiven S.Source w []) }
    {
        let columns = columns.clone()?;
        let room = vec![in alloc; 0u8; PULLED_MOST]?;
        Ok(Wrapper {
            source,
            ahead: ReadAhead::new(alloc, columns),
            room,
            kept: 0,
            failed: false,
            accepted: 0,
        })
    }

    /// Pulls more bytes, where no whole frame is held. Bytes for which there was no memory are kept, and taken up
    /// first by the next call.
    pub fn pull_rows(&mut self, alloc: Global) -> Pulled
        requires { MayPull self.old }
        ensures source { SameSource S.Source self.old.source self.new.source }
        ensures columns { self.new.ahead.columns ≡ self.old.ahead.columns }
        ensures gave { (given : RowList) → HasGiven S.Source self.old given → HasGiven S.Source self.new given }
        ensures answer { IsPulled S.Source self.old self.new result }

        // One pull of the source, which this answers, or none.
        ensures one_pull { AsksSource self.old → AnswersOnePull S.Source self.old.source self.new.source result }
        ensures no_pull { LeavesSource self.old → self.new.source ≡ self.old.source }
        ensures waits { CountsWaits S.Source self.old.source self.new.source result }
        ensures moved { MovesBy S.Source self.old self.new result }

        ensures given { self.new.accepted ≡ self.old.accepted }
        ensures accepted { AcceptedAs S.Source self.new }
        ensures stays { StaysPulled self.old self.new result }
        ensures last { self.old.ahead.framed.ended ≡ true → IsLast result }
        ensures sound { SoundAs S.Source self.new state.Active None }
    {
        if let Some(fault) = self.fault() {
            return Pulled::Failed(fault);
        }
        if self.is_finished() {
            return self.at_end();
        }
        if !self.has_kept() {
            match self.take_piece() {
                Came::NotYet => return Pulled::NotYet,
                Came::Failed => return Pulled::Failed(MemberFault::Read),
                Came::End => return self.at_end(),
                Came::Bytes => {}
            }
        }
        match self.feed_kept(alloc) {
            Ok(()) => return Pulled::Moved,
            Err(_) => return Pulled::NoMemory,
        }
    }

    /// The next row of the frames that are held. After want of memory the call may be made again.
    pub fn next_row(&mut self, alloc: Global) -> NextRow
        ensures source { self.new.source ≡ self.old.source }
        ensures columns { self.new.ahead.columns ≡ self.old.ahead.columns }
        ensures gave { (given : RowList) → HasGiven S.Source self.old given → HasGiven S.Source self.new (given ++ row_of result) }
        ensures answer { IsNext S.Source self.old self.new result }
        ensures wide { FillsColumns self.old.ahead.columns result }
        ensures given { self.new.accepted ≡ self.old.accepted + length (row_of result) }
        ensures accepted { AcceptedAs S.Source self.new }
        ensures kept { self.new.kept ≡ self.old.kept }
        ensures ended { self.new.ahead.framed.ended ≡ self.old.ahead.framed.ended }
        ensures stays { StaysNext self.old self.new result }
        ensures sound { SoundAs S.Source self.new state.Active None }
    {
        if let Some(fault) = self.fault() {
            return NextRow::Failed(fault);
        }
        match self.fill(alloc) {
            Ok(()) => {}
            Err(_) => return NextRow::NoMemory,
        }
        if let Some(row) = self.give() {
            return NextRow::Row(row);
        }
        match self.fault() {
            Some(fault) => return NextRow::Failed(fault),
            None => return NextRow::Nothing,
        }
    }

    fn fault(&self) -> Option<MemberFault>
        ensures fault { result ≡ fault_of self.now }
        ensures wrapped { IsWrapped S.Source self.now }
    {
        if self.failed {
            return Some(MemberFault::Read);
        }
        self.ahead.fault()
    }

    fn is_finished(&self) -> bool
        ensures { result ≡ self.now.ahead.framed.ended }
    {
        self.ahead.is_finished()
    }

    fn has_kept(&self) -> bool
        ensures kept { result ≡ true → 0 < length self.now.kept }
        ensures none { result ≡ false → self.now.kept ≡ [] }
    {
        self.kept > 0
    }

    fn fill(&mut self, alloc: Global) -> Result<(), AllocError>
        requires { self.old.failed ≡ false }
        ensures same { self.new ≡ record self.old { ahead = self.new.ahead } }
        ensures columns { self.new.ahead.columns ≡ self.old.ahead.columns }
        ensures gave { (given : RowList) → HasGiven S.Source self.old given → HasGiven S.Source self.new given }
        ensures keeps { KeepsFuture self.old.ahead self.new.ahead }
        ensures read { OnOk result (IsReadAhead self.new.ahead) }
        ensures wrapped { IsWrapped S.Source self.new }
    {
        self.ahead.fill(alloc)
    }

    fn give(&mut self) -> Option<Row>
        requires { self.old.failed ≡ false }
        ensures same { self.new ≡ record self.old { ahead = record self.old.ahead { rows = self.new.ahead.rows }; accepted = self.new.accepted } }
        ensures gave { (given : RowList) → HasGiven S.Source self.old given → HasGiven S.Source self.new (given ++ option_to_list result) }
        ensures rows { self.old.ahead.rows ≡ option_to_list result ++ self.new.ahead.rows }
        ensures none { IfNone result (self.new.ahead.rows ≡ []) }
        ensures wide { IfSome result (λ row. length row ≡ length self.old.ahead.columns) }
        ensures few { self.new.accepted ≤ 2 ^ 62 }
        ensures given { self.new.accepted ≡ self.old.accepted + length (option_to_list result) }
        ensures wrapped { IsWrapped S.Source self.new }
    {
        let row = self.ahead.pop()?;
        self.accepted += 1;
        Some(row)
    }

    fn take_piece(&mut self) -> Came
        requires failed { self.old.failed ≡ false }
        requires unended { self.old.ahead.framed.ended ≡ false }
        requires kept { self.old.kept ≡ [] }
        requires nothing { HoldsNothing self.old.ahead }
        ensures source { SameSource S.Source self.old.source self.new.source }
        ensures gave { (given : RowList) → HasGiven S.Source self.old given → HasGiven S.Source self.new given }
        ensures came { CameAs S.Source self.old self.new result }
        ensures pulled { ComesOfOnePull S.Source self.old.source self.new.source self.new.kept result }
        ensures wrapped { IsWrapped S.Source self.new }
    {
        match self.source.pull(self.room.as_mut_slice()) {
            Pull::NotYet => return Came::NotYet,
            Pull::Failed => {
                self.failed = true;
                return Came::Failed;
            }
            Pull::End => {
                self.ahead.finish();
                return Came::End;
            }
            Pull::Bytes(0) => {
                self.ahead.finish();
                return Came::End;
            }
            Pull::Bytes(count) => {
                self.kept = count;
                return Came::Bytes;
            }
        }
    }

    fn feed_kept(&mut self, alloc: Global) -> Result<(), AllocError>
        requires failed { self.old.failed ≡ false }
        requires unended { self.old.ahead.framed.ended ≡ false }
        requires nothing { HoldsNothing self.old.ahead }
        ensures same { self.new ≡ record self.old { ahead = record self.old.ahead { framed = self.new.ahead.framed }; kept = self.new.kept } }
        ensures unended { self.new.ahead.framed.ended ≡ false }
        ensures gave { (given : RowList) → HasGiven S.Source self.old given → HasGiven S.Source self.new given }
        ensures fed { OnOk result (self.new.kept ≡ []) }
        ensures rest { OnOk result (self.new.ahead.framed.rest ≡ self.old.ahead.framed.rest ++ self.old.kept) }
        ensures stays { OnErr result (HoldsNothing self.new.ahead) }
        ensures wrapped { IsWrapped S.Source self.new }
    {
        self.ahead.feed(alloc, &self.room[..self.kept])?;
        self.kept = 0;
        Ok(())
    }

    fn at_end(&mut self) -> Pulled
        requires failed { self.old.failed ≡ false }
        requires told { self.old.ahead.framed.ended ≡ true }
        requires rows { self.old.ahead.rows ≡ [] }
        requires good { self.old.ahead.bad ≡ None }
        ensures same { self.new ≡ record self.old { ahead = self.new.ahead } }
        ensures columns { self.new.ahead.columns ≡ self.old.ahead.columns }
        ensures gave { (given : RowList) → HasGiven S.Source self.old given → HasGiven S.Source self.new given }
        ensures end { IsEnd self.new result }
        ensures last { HoldsNone self.old.ahead.framed → IsLast result }
        ensures wrapped { IsWrapped S.Source self.new }
    {
        match self.ahead.at_end() {
            AtEnd::Held => return Pulled::Moved,
            AtEnd::Clean => return Pulled::Ended,
            AtEnd::Bad(fault) => return Pulled::Failed(fault),
        }
    }

    pub fn into_source(self) -> S
        ensures { result ≡ self.source }
    {
        self.source
    }
}
