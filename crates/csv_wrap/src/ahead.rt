//! Rows that are read ahead of those that are given.

ghost use Rattle.std.specs.Prelude.{◌≡◌, ◌+◌, ◌<◌, ◌≤◌, ◌^◌, ◌++◌, [], false, true, length, take, drop, None, OnOk, OnErr, IfNone, IfSome, option_to_list};
ghost use Rattle.csv_frame.specs.Holding.{HoldsNone, IsAtHand};
ghost use Rattle.csv_wrap.specs.Ahead.{Ahead, EndsAt, FillColumns, IsReadAhead, IsRunAhead, KeepsFuture, fault_behind};

use crate::frame_rows::read_frame;
use crate::run_rows::{put, read_run};
use csv_frame::{Framer, Peek, Span};
use csv_runs::run_length;
use med_base::MemberFault;
use std::alloc::{AllocError, Global};
use std::collections::VecDeque;
use std::marker::Model;
use tuple_core::{Columns, Row};

/// The bytes of a source from the next frame on, and the rows of the frames before it that weren't given yet.
#[derive(Drop)]
pub struct ReadAhead {
    columns: Columns,
    framer: Framer,
    number: u64,
    rows: VecDeque<Row>,
    bad: Option<MemberFault>,
}

impl Model for ReadAhead {
    ghost use Rattle.std.specs.Prelude.{◌+◌, ◌≤◌, ◌^◌, length};
    ghost use Rattle.csv_wrap.specs.Ahead.{Ahead, FillColumns};

    ghost Value = { Ahead };

    ghost view = { λ a. record { columns = a.columns; rows = a.rows.items; bad = a.bad; number = a.number; framed = a.framer } };

    ghost invariant = { λ a. FillColumns a.columns a.rows.items × (length a.columns ≤ 64) × (a.number ≤ a.framer.at) × (a.framer.at + length a.framer.rest ≤ 2 ^ 62) };
}

/// What is left of a source that has told its end.
pub enum AtEnd {
    /// A whole frame.
    Held,
    /// Nothing, and no frame was bad.
    Clean,
    /// Nothing, and the header is missing.
    Bad(MemberFault),
}

impl ReadAhead {
    pub fn new(alloc: Global, columns: Columns) -> Self
        requires { length columns ≤ 64 }
        ensures { result ≡ record { columns = columns; rows = []; bad = None; number = 0; framed = record { bytes = []; rest = []; at = 0; ended = false } } }
    {
        ReadAhead {
            columns,
            framer: Framer::new(alloc),
            number: 0,
            rows: VecDeque::new(alloc),
            bad: None,
        }
    }

    /// Takes the next bytes of the source.
    pub fn feed(&mut self, alloc: Global, piece: &[u8]) -> Result<(), AllocError>
        requires few { self.old.framed.at + length self.old.framed.rest + length piece.now ≤ 2 ^ 62 }
        requires open { self.old.framed.ended ≡ false }
        ensures fed { OnOk result (self.new.framed.rest ≡ self.old.framed.rest ++ piece.now) }
        ensures kept { OnErr result (self.new.framed.rest ≡ self.old.framed.rest) }
        ensures ended { self.new.framed.ended ≡ self.old.framed.ended }
        ensures at { self.new.framed.at ≡ self.old.framed.at }
        ensures others { (self.new.columns ≡ self.old.columns) × (self.new.rows ≡ self.old.rows) × (self.new.bad ≡ self.old.bad) × (self.new.number ≡ self.old.number) }
    {
        self.framer.feed(alloc, piece)?;
        Ok(())
    }

    /// Reads frames until a row or a fault is there, or no whole frame is held.
    pub fn fill(&mut self, alloc: Global) -> Result<(), AllocError>
        ensures keeps { KeepsFuture self.old self.new }
        ensures read { OnOk result (IsReadAhead self.new) }
    {
        'frames: loop {
            if !self.rows.is_empty() {
                return Ok(());
            }
            if self.bad.is_some() {
                return Ok(());
            }
            match self.framer.peek() {
                Peek::Frame { span, count } => self.read_some(alloc, span, count)?,
                Peek::TooLong { .. } => {
                    self.bad = Some(MemberFault::TooLong { k: self.number });
                    return Ok(());
                }
                Peek::NotWhole => return Ok(()),
            }
        }
    }

    /// Reads the frame at hand, and with it all those of its run, if it begins one.
    fn read_some(&mut self, alloc: Global, span: Span, count: usize) -> Result<(), AllocError>
        requires hand { IsAtHand self.old.framed span count }
        requires good { self.old.bad ≡ None }
        ensures keeps { KeepsFuture self.old self.new }
        ensures forward { OnOk result (length self.new.framed.rest < length self.old.framed.rest) }
    {
        let run = run_length(self.framer.rest());
        if run > 0 {
            self.read_run_held(alloc, run)
        } else {
            self.read_at_hand(alloc, span, count)
        }
    }

    fn read_run_held(&mut self, alloc: Global, count: usize) -> Result<(), AllocError>
        requires run { IsRunAhead self.old.framed count }
        requires good { self.old.bad ≡ None }
        ensures keeps { KeepsFuture self.old self.new }
        ensures forward { OnOk result (length self.new.framed.rest < length self.old.framed.rest) }
    {
        let before = self.rows.len();
        let mut number = self.number;
        let run = &self.framer.rest()[..count];
        match read_run(
            alloc,
            self.columns.as_slice(),
            run,
            &mut number,
            &mut self.rows,
        ) {
            Ok(bad) => {
                self.bad = bad;
                self.number = number;
                self.framer.skip(count);
                Ok(())
            }
            Err(error) => {
                self.rows.truncate(before);
                Err(error)
            }
        }
    }

    fn read_at_hand(&mut self, alloc: Global, span: Span, count: usize) -> Result<(), AllocError>
        requires hand { IsAtHand self.old.framed span count }
        requires good { self.old.bad ≡ None }
        ensures keeps { KeepsFuture self.old self.new }
        ensures forward { OnOk result (length self.new.framed.rest < length self.old.framed.rest) }
    {
        let frame = self.framer.bytes(span);
        let read = read_frame(alloc, self.columns.as_slice(), self.number, frame)?;
        self.bad = put(&mut self.rows, read)?;
        self.framer.skip(count);
        self.number += 1;
        Ok(())
    }

    /// Takes the first of the rows.
    pub fn pop(&mut self) -> Option<Row>
        ensures rows { self.old.rows ≡ option_to_list result ++ self.new.rows }
        ensures others { self.new ≡ record self.old { rows = self.new.rows } }
        ensures none { IfNone result (self.new.rows ≡ []) }
        ensures wide { IfSome result (λ row. length row ≡ length self.old.columns) }
        ensures few { self.new.number ≤ 2 ^ 62 }
    {
        self.rows.pop_front()
    }

    /// The fault that was reached, once no row is left before it.
    pub fn fault(&self) -> Option<MemberFault>
        ensures { result ≡ fault_behind self.now.rows self.now.bad }
    {
        if self.rows.is_empty() { self.bad } else { None }
    }

    pub fn is_finished(&self) -> bool
        ensures { result ≡ self.now.framed.ended }
    {
        self.framer.is_finished()
    }

    /// Tells the source's end.
    pub fn finish(&mut self)
        ensures { self.new ≡ record self.old { framed = record self.old.framed { ended = true } } }
    {
        self.framer.finish();
    }

    /// What is left once the end was told, where no row and no fault was read ahead.
    pub fn at_end(&mut self) -> AtEnd
        requires told { self.old.framed.ended ≡ true }
        requires rows { self.old.rows ≡ [] }
        requires good { self.old.bad ≡ None }
        ensures keeps { KeepsFuture self.old self.new }
        ensures end { EndsAt self.new result }
        ensures held { result ≡ AtEnd.Held → HoldsNone self.old.framed → ⊥ }
    {
        match self.framer.peek() {
            Peek::Frame { .. } => return AtEnd::Held,
            Peek::TooLong { .. } => return AtEnd::Held,
            Peek::NotWhole => {}
        }
        if self.number > 0 {
            return AtEnd::Clean;
        }
        let fault = MemberFault::Header { found: 0 };
        self.bad = Some(fault);
        AtEnd::Bad(fault)
    }
}
