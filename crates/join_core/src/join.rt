//! The join, and its calls.

ghost use Rattle.std.specs.Prelude.{◌≡◌, ◌<◌, ◌≤◌, ◌+◌, ◌&&◌, [], length, option_map, slice_index_or, replicate, false, true, None, IfOk};
ghost use Rattle.std.specs.List.{AllByRecursion, sum};
ghost use Rattle.answer_theory.specs.Bags.{SameBag};
ghost use Rattle.answer_theory.specs.Rows.{AreDistinct, glued_variables};
ghost use Rattle.bucket_store.specs.Held.{greatest_total, no_row, rows_in};
ghost use Rattle.row_match.specs.Patterns.{most_variables};
ghost use Rattle.row_match.specs.Shapes.{vars_of};
ghost use Rattle.row_match.specs.declared.shape.Side.{Side as ASide};
ghost use Rattle.row_match.specs.declared.shape.Side.TheVariants as which;
ghost use Rattle.join_core.specs.Given.{given_rows, joined_rows, pairs_given, pairs_left_over, pairs_owed};
ghost use Rattle.join_core.specs.Sides.{at_place, glued_on, opposite};
ghost use Rattle.join_core.specs.State.{AreRowsOver, ended, fresh_join, has_ended, pile_weights, piles_of, stored_rows};
ghost use Rattle.join_core.specs.Steps.{Arrives, GivesNext, JoinStep, came_in, gave_out, is_finished, on_side};

use crate::probe::Probe;
use crate::sides::{Sides, opposite};
use bucket_store::Buckets;
use row_match::{JoinShape, Side};
use std::alloc::{AllocError, Global};
use std::marker::Model;
use tuple_core::{KeyRoom, Row};

/// What came of a row.
#[derive(Debug, Drop)]
pub enum Arrive {
    /// It is kept, and is the probe.
    Taken,
    /// Nothing has changed, and the row is handed back. Memory ran out, or the join has had 2^64 - 1 rows, the bucket has
    /// 2^32 - 1, the row with its key takes 2^32 bytes, or all rows of the side would weigh more than 2^60 bytes.
    NoMemory(Row),
}

/// The next match.
#[derive(Debug, Drop)]
pub enum OutStep {
    /// The left row and the right row, glued.
    Row(Row),
    /// No match of the probe is left.
    Nothing,
    /// Nothing has changed: the same match comes next.
    NoMemory,
}

/// A join of two sides.
#[derive(Debug, Drop)]
pub struct Join {
    shape: JoinShape,
    sides: Sides,
    left_ended: bool,
    right_ended: bool,
    next: u64,
    // The key of the probe, while one is under way.
    key: KeyRoom,
    probe: Option<Probe>,
}

impl Model for Join {
    ghost use Rattle.join_core.specs.Kept.{IsJoin};
    ghost use Rattle.join_core.specs.Sides.{joining_of};
    ghost use Rattle.join_core.specs.State.{Joining};

    ghost Value = { Joining };

    ghost view = { λ j. joining_of j.shape j.sides j.left_ended j.right_ended j.next j.probe };

    ghost invariant = { λ j. IsJoin j.shape j.sides j.next j.key j.probe };
}

impl Join {
    /// A join without rows, with so many buckets on each side.
    pub fn new(alloc: Global, shape: JoinShape, buckets: u32) -> Result<Join, AllocError>
        requires { 0 < buckets }
        ensures { IfOk result (λ join. join ≡ fresh_join buckets shape) }
    {
        Ok(Join {
            shape,
            sides: Sides::new(alloc, buckets)?,
            left_ended: false,
            right_ended: false,
            next: 0,
            key: KeyRoom::new(alloc)?,
            probe: None,
        })
    }

    /// The next row of a side comes. It is kept, and is compared with the other side's rows by `next_out`.
    pub fn arrive(&mut self, alloc: Global, side: Side, row: Row) -> Arrive
        requires goes_on { has_ended side self.old ≡ false }
        requires idle { self.old.probe ≡ None }
        requires wide { length row ≡ length (vars_of side self.old.shape) }
        ensures arrives { Arrives self.old self.new side row result }
        ensures step { JoinStep self.old self.new (on_side side which.Left (came_in row result)) (on_side side which.Right (came_in row result)) [] }
        ensures pairs { SameBag (pairs_given self.new) (pairs_given self.old) }
    {
        let Some(next) = self.next.checked_add(1) else {
            return Arrive::NoMemory(row);
        };
        self.shape.key_of(side, &row, &mut self.key);
        let address = self.sides.on(side).address(&self.key);
        let key = self.key.as_slice();
        if let Err(AllocError) = self
            .sides
            .insert(alloc, side, &address, key, &row, self.next)
        {
            return Arrive::NoMemory(row);
        }
        self.probe = Some(Probe {
            side,
            row,
            number: self.next,
            address,
            place: 0,
            from: 0,
        });
        self.next = next;
        Arrive::Taken
    }

    /// The next match of the row that came last.
    pub fn next_out(&mut self, alloc: Global) -> OutStep
        ensures gives { GivesNext self.old self.new result }
        ensures step { JoinStep self.old self.new [] [] (gave_out result) }
        ensures wide { AllByRecursion (λ row. length row ≡ length (glued_variables self.old.shape.left self.old.shape.right)) (gave_out result) }
    {
        let Some(probe) = &self.probe else {
            return OutStep::Nothing;
        };
        let facing = self.sides.on(opposite(probe.side));
        let Some(place) = facing.probe(&probe.address, self.key.as_slice(), probe.place) else {
            self.probe = None;
            return OutStep::Nothing;
        };
        let Ok(glued) = glue_at(alloc, &self.shape, facing, probe, place) else {
            return OutStep::NoMemory;
        };
        let number = facing.entry(probe.address.bucket(), place).number();
        self.probe = moved_on(self.probe.take(), place + 1, number + 1);
        OutStep::Row(glued)
    }

    /// No row comes on this side any more.
    pub fn close(&mut self, side: Side)
        ensures ended { self.new ≡ ended side self.old }
        ensures step { JoinStep self.old self.new [] [] [] }
    {
        match side {
            Side::Left => self.left_ended = true,
            Side::Right => self.right_ended = true,
        }
    }

    /// Whether both sides have ended and all matches are given.
    pub fn finished(&self) -> bool
        ensures finished { result ≡ is_finished self.now }
        ensures nothing_owed { result ≡ true → pairs_owed self.now ≡ [] }
        ensures all { result ≡ true → SameBag (given_rows self.now) (joined_rows self.now.shape (stored_rows which.Left self.now) (stored_rows which.Right self.now)) }
    {
        are_all(self.left_ended, self.right_ended, self.probe.is_none())
    }

    /// What holds of each join, for callers' proofs. It does nothing.
    pub fn stands(&self)
        ensures rows { (side : ASide) → AreRowsOver (vars_of side self.now.shape) (stored_rows side self.now) }
        ensures left { AreDistinct self.now.shape.left }
        ensures short { length (glued_variables self.now.shape.left self.now.shape.right) ≤ most_variables }
        ensures none_left { pairs_left_over self.now ≡ [] }
    {
        let _variables = self.shape.variables().as_slice();
    }

    /// How heavy the rows of each bucket of a side are that are in memory.
    pub fn weights(&self, side: Side) -> &[u64]
        ensures weights { result.now ≡ pile_weights (piles_of side self.now) }
        ensures light { sum (pile_weights (piles_of side self.now)) ≤ greatest_total }
    {
        self.sides.on(side).weights()
    }
}

fn are_all(first: bool, second: bool, third: bool) -> bool
    ensures { result ≡ ((first && second) && third) }
{
    first && second && third
}

// The probe's row and the facing one at a place, glued in the order of the sides.
fn glue_at(
    alloc: Global,
    shape: &JoinShape,
    facing: &Buckets,
    probe: &Probe,
    place: u32,
) -> Result<Row, AllocError>
    requires bucket { probe.now.address.bucket < length facing.now }
    requires place { place < length (rows_in facing.now probe.now.address.bucket) }
    requires own { length probe.now.row ≡ length (vars_of probe.now.side shape.now) }
    requires other { length (slice_index_or (rows_in facing.now probe.now.address.bucket) place no_row).row ≡ length (vars_of (opposite probe.now.side) shape.now) }
    ensures { IfOk result (λ r. r ≡ glued_on probe.now.side shape.now probe.now.row (slice_index_or (rows_in facing.now probe.now.address.bucket) place no_row).row) }
{
    let other = facing.row_at(alloc, probe.address.bucket(), place)?;
    match probe.side {
        Side::Left => shape.glue(alloc, &probe.row, &other),
        Side::Right => shape.glue(alloc, &other, &probe.row),
    }
}

// The probe, which has come to a place.
fn moved_on(probe: Option<Probe>, place: u32, from: u64) -> Option<Probe>
    ensures { result ≡ option_map (at_place place from) probe }
{
    probe.map(|probe| Probe {
        place,
        from,
        ..probe
    })
}
