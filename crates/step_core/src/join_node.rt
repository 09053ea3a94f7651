//! A join of a net: its two edges in, and the comparisons that are placed at it.

ghost use Rattle.std.specs.Prelude.{◌≡◌, [], None};
ghost use Rattle.join_core.specs.Given.{pairs_left_over};
ghost use Rattle.step_core.specs.Joins.{ClosesJoin, Feeds, FeedsOn, GivesOut, MayCome, MayTake, Takes};

use crate::actor::StepEnd;
use crate::edge::Edge;
use join_core::{Arrive, Join, OutStep};
use row_match::{Filter, Side};
use std::alloc::Global;
use std::marker::Model;

/// A join, with the rows that wait for it.
#[derive(Drop)]
pub struct JoinNode {
    pub(crate) number: u32,
    pub(crate) join: Join,
    pub(crate) filter: Filter,
    pub(crate) left: Edge,
    pub(crate) right: Edge,
}

impl Model for JoinNode {
    ghost use Rattle.std.specs.Prelude.{◌≡◌};
    ghost use Rattle.answer_theory.specs.Rows.{glued_variables};
    ghost use Rattle.step_core.specs.Nets.{JoinState};

    ghost Value = { JoinState };

    ghost view = { λ j. record { number = j.number; joining = j.join; comparisons = j.filter.comparisons; left = j.left; right = j.right } };

    ghost invariant = { λ j. j.filter.vars ≡ glued_variables j.join.shape.left j.join.shape.right };
}

impl JoinNode {
    pub(crate) fn number(&self) -> u32
        ensures { result ≡ self.now.number }
    {
        self.number
    }

    /// One item of the edge on that side: the next match of the row that came last is given; where none is left, the
    /// next row is taken, or the mark that no more will come.
    pub(crate) fn take(&mut self, alloc: Global, side: Side, out: &mut Edge) -> StepEnd
        requires { MayTake side self.old }
        ensures { Takes side self.old self.new out.old out.new result }
    {
        match self.give(alloc, out) {
            Some(end) => end,
            None => self.take_in(alloc, side),
        }
    }

    // The next match goes out, if its comparisons hold. None where no match is left.
    fn give(&mut self, alloc: Global, out: &mut Edge) -> Option<StepEnd>
        ensures { GivesOut self.old self.new out.old out.new result }
    {
        if out.reserve().is_err() {
            return Some(StepEnd::NoMemory);
        }
        match self.join.next_out(alloc) {
            OutStep::Row(row) => {
                if self.filter.holds(&row) {
                    out.put(row);
                }
                Some(StepEnd::Moved)
            }
            OutStep::Nothing => None,
            OutStep::NoMemory => Some(StepEnd::NoMemory),
        }
    }

    // The next row comes, or the end. No match is left.
    fn take_in(&mut self, alloc: Global, side: Side) -> StepEnd
        requires may { MayTake side self.old }
        requires idle { self.old.joining.probe ≡ None }
        ensures { FeedsOn side self.old self.new result }
    {
        match side {
            Side::Left => feed(alloc, &mut self.join, side, &mut self.left),
            Side::Right => feed(alloc, &mut self.join, side, &mut self.right),
        }
    }

    /// No pair is left for later, as all rows are in memory. It does nothing.
    pub(crate) fn owes_nothing(&self)
        ensures { pairs_left_over self.now.joining ≡ [] }
    {
        self.join.stands();
    }

    /// Puts the mark that no more rows will come, where all were given.
    pub(crate) fn close(&mut self, out: &mut Edge) -> StepEnd
        ensures { ClosesJoin self.old self.new out.old out.new result }
    {
        if out.closed() || !self.join.finished() {
            return StepEnd::Still;
        }
        // For the proof; it does nothing.
        self.join.stands();
        out.close();
        StepEnd::Moved
    }
}

// The first row that waits on the edge comes to the join; where none waits, the end. Where memory runs out, the row
// goes back.
fn feed(alloc: Global, join: &mut Join, side: Side, edge: &mut Edge) -> StepEnd
    requires may { MayCome side join.old edge.old }
    requires idle { join.old.probe ≡ None }
    ensures { Feeds side join.old join.new edge.old edge.new result }
{
    let Some(row) = edge.rows.pop_front() else {
        return end(join, side, edge);
    };
    match join.arrive(alloc, side, row) {
        Arrive::Taken => StepEnd::Moved,
        Arrive::NoMemory(row) => {
            edge.rows.push_front_reserved(row);
            StepEnd::NoMemory
        }
    }
}

// The end of the edge comes to the join, if it waits. No row does.
fn end(join: &mut Join, side: Side, edge: &mut Edge) -> StepEnd
    requires { edge.old.rows ≡ [] }
    ensures { Feeds side join.old join.new edge.old edge.new result }
{
    if !edge.ends() {
        return StepEnd::Still;
    }
    join.close(side);
    edge.take_end();
    StepEnd::Moved
}
