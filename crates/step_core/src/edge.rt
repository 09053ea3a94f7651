//! An edge: what waits between an operator and the one that takes its rows.

ghost use Rattle.std.specs.Prelude.{◌≡◌, ◌<◌, ◌&&◌, ◌==◌, not, [], ◌∷◌, length, true, false, OnOk};
ghost use Rattle.med_prelude.specs.Counts.{greatest_count};
ghost use Rattle.step_core.specs.Edges.{IsUnused, PutsRows, SameWaits};
ghost use Rattle.step_core.specs.Passes.{has_room};

use std::alloc::{AllocError, Global};
use std::collections::VecDeque;
use std::marker::Model;
use tuple_core::Row;

/// How many rows may wait on an edge before a pass holds back its giver.
pub(crate) const MOST_WAITING: usize = 1024;

/// Rows that wait, first in, first out; behind the last one the mark that no more will come.
#[derive(Drop)]
pub struct Edge {
    pub(crate) rows: VecDeque<Row>,
    // How many rows were put in all.
    given: u64,
    // Whether the mark was put, and whether it was taken.
    put: bool,
    taken: bool,
}

impl Model for Edge {
    ghost use Rattle.std.specs.Prelude.{◌-◌};
    ghost use Rattle.std.specs.VecDeque.{deque_capacity, deque_len};
    ghost use Rattle.step_core.specs.Edges.{Waits};

    ghost Value = { Waits };

    ghost view = { λ e. record { rows = e.rows.items; given = e.given; put = e.put; taken = e.taken; room = deque_capacity e.rows - deque_len e.rows } };
}

impl Edge {
    pub(crate) fn new(alloc: Global) -> Edge
        ensures { IsUnused result }
    {
        Edge {
            rows: VecDeque::new(alloc),
            given: 0,
            put: false,
            taken: false,
        }
    }

    /// How many rows wait.
    pub fn len(&self) -> usize
        ensures { result ≡ length self.now.rows }
    {
        self.rows.len()
    }

    /// How many rows were put in all.
    pub fn given(&self) -> u64
        ensures { result ≡ self.now.given }
    {
        self.given
    }

    /// Whether the mark was put that no more rows will come.
    pub fn closed(&self) -> bool
        ensures { result ≡ self.now.put }
    {
        self.put
    }

    /// Whether fewer than [`MOST_WAITING`] rows wait.
    pub(crate) fn has_room(&self) -> bool
        ensures { result ≡ has_room self.now }
    {
        self.rows.len() < MOST_WAITING
    }

    /// Whether the mark was put, and not taken yet.
    pub(crate) fn ends(&self) -> bool
        ensures { result ≡ (self.now.put && not self.now.taken) }
    {
        self.put && !self.taken
    }

    /// Makes room for one row more. Memory may run out, or the edge had 2^64 - 1 rows.
    pub(crate) fn reserve(&mut self) -> Result<(), AllocError>
        ensures same { SameWaits self.old self.new }
        ensures room { OnOk result (0 < self.new.room) }
        ensures few { OnOk result (self.new.given < greatest_count) }
    {
        if self.given == u64::MAX {
            return Err(AllocError);
        }
        self.rows.reserve(1)
    }

    /// Puts a row at the end.
    pub(crate) fn put(&mut self, row: Row)
        requires room { 0 < self.old.room }
        requires few { self.old.given < greatest_count }
        ensures { PutsRows self.old self.new (row ∷ []) }
    {
        self.rows.push_back_reserved(row);
        self.given += 1;
    }

    /// Puts the mark that no more rows will come.
    pub(crate) fn close(&mut self)
        ensures { self.new ≡ record self.old { put = true } }
    {
        self.put = true;
    }

    /// Takes the mark.
    pub(crate) fn take_end(&mut self)
        ensures { self.new ≡ record self.old { taken = true } }
    {
        self.taken = true;
    }
}
