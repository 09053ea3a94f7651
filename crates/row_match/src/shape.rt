//! How two sides' rows are joined: what they share, and the row glued of two.

ghost use Rattle.std.specs.Prelude.{◌≡◌, ◌≤◌, ◌++◌, [], length, slice_get, IfOk, OnOk};
ghost use Rattle.std.specs.List.{cons_option, filter_map};
ghost use Rattle.answer_theory.specs.Bindings.{glue};
ghost use Rattle.answer_theory.specs.Rows.{over, glued_variables, lacked_values, shared_variables};
ghost use Rattle.answer_theory.specs.Solutions.{names};
ghost use Rattle.tuple_core.specs.Encoding.{row_encoding};
ghost use Rattle.row_match.specs.Shapes.{key_positions, key_row, lacking_variables, positions_in, vars_of};

use crate::vars::{Vars, position_of, value_at};
use std::alloc::{AllocError, Global};
use std::marker::Model;
use tuple_core::{KeyRoom, Row, Value};

/// A side of a join.
#[derive(Clone, Copy, Debug, PartialEq, Eq)]
pub enum Side {
    Left,
    Right,
}

/// The variables of a join's two sides, prepared for their rows.
#[derive(Debug, Drop)]
pub struct JoinShape {
    left: Vec<u32>,
    right: Vec<u32>,
    left_key: Vec<usize>,
    right_key: Vec<usize>,
    lacked: Vec<usize>,
    variables: Vars,
}

impl Model for JoinShape {
    ghost use Rattle.row_match.specs.Shapes.{Shape, IsShaped};

    ghost Value = { Shape };

    ghost view = { λ s. record { left = s.left.items; right = s.right.items } };

    ghost invariant = { λ s. IsShaped s.left.items s.right.items s.left_key.items s.right_key.items s.lacked.items s.variables };
}

fn names(variables: &[u32], variable: u32) -> bool
    ensures { result ≡ names variables.now variable }
{
    variables.iter().any(|v| *v == variable)
}

fn copy_of(alloc: Global, variables: &[u32]) -> Result<Vec<u32>, AllocError>
    ensures { IfOk result (λ copy. copy.items ≡ variables.now) }
{
    let mut copy = Vec::new(alloc);
    copy.extend_from_slice(variables)?;
    Ok(copy)
}

fn shared_variables(alloc: Global, left: &[u32], right: &[u32]) -> Result<Vec<u32>, AllocError>
    ensures { IfOk result (λ chosen. chosen.items ≡ shared_variables left.now right.now) }
{
    let mut chosen = Vec::new(alloc);
    for variable in left {
        if names(right, *variable) {
            chosen.push(*variable)?;
        }
    }
    Ok(chosen)
}

// The right variables that the left lacks.
fn lacking_variables(alloc: Global, left: &[u32], right: &[u32]) -> Result<Vec<u32>, AllocError>
    ensures { IfOk result (λ chosen. chosen.items ≡ lacking_variables left.now right.now) }
{
    let mut chosen = Vec::new(alloc);
    for variable in right {
        if !names(left, *variable) {
            chosen.push(*variable)?;
        }
    }
    Ok(chosen)
}

fn push_some(positions: &mut Vec<usize>, position: Option<usize>) -> Result<(), AllocError>
    ensures { OnOk result (positions.new.items ≡ positions.old.items ++ cons_option position []) }
{
    match position {
        Some(position) => Ok(positions.push(position)?),
        None => Ok(()),
    }
}

// Where some variables stand among others.
fn positions_in(alloc: Global, wanted: &[u32], variables: &[u32]) -> Result<Vec<usize>, AllocError>
    ensures { IfOk result (λ positions. positions.items ≡ positions_in variables.now wanted.now) }
{
    let mut positions = Vec::new(alloc);
    for variable in wanted {
        push_some(&mut positions, position_of(variables, *variable))?;
    }
    Ok(positions)
}

// Appends a copy of the value that stands at the position.
fn push_copy(row: &[Value], position: usize, into: &mut Vec<Value>) -> Result<(), AllocError>
    ensures { OnOk result (into.new.items ≡ into.old.items ++ cons_option (slice_get row.now position) []) }
{
    match value_at(row, position) {
        Some(value) => Ok(into.push(value.clone()?)?),
        None => Ok(()),
    }
}

// Appends copies of the values that stand at the positions.
fn gather(row: &[Value], positions: &[usize], into: &mut Vec<Value>) -> Result<(), AllocError>
    ensures { OnOk result (into.new.items ≡ into.old.items ++ filter_map (slice_get row.now) positions.now) }
{
    for position in positions {
        push_copy(row, *position, into)?;
    }
    Ok(())
}

fn copy_values(alloc: Global, row: &[Value]) -> Result<Vec<Value>, AllocError>
    ensures { IfOk result (λ copies. copies.items ≡ row.now) }
{
    Vec::from_clones(alloc, row)
}

fn append(alloc: Global, left: &[u32], right: &[u32]) -> Result<Vec<u32>, AllocError>
    ensures { IfOk result (λ all. all.items ≡ left.now ++ right.now) }
{
    let mut all = copy_of(alloc, left)?;
    all.extend_from_slice(right)?;
    Ok(all)
}

impl JoinShape {
    pub fn new(alloc: Global, left: &Vars, right: &Vars) -> Result<JoinShape, AllocError>
        requires short { length (glued_variables left.now right.now) ≤ Vars.MOST }
        ensures left { IfOk result (λ shape. shape.left ≡ left.now) }
        ensures right { IfOk result (λ shape. shape.right ≡ right.now) }
    {
        let (left, right) = (left.as_slice(), right.as_slice());
        let shared = shared_variables(alloc, left, right)?;
        let lacking = lacking_variables(alloc, left, right)?;
        Ok(JoinShape {
            left_key: positions_in(alloc, shared.as_slice(), left)?,
            right_key: positions_in(alloc, shared.as_slice(), right)?,
            lacked: positions_in(alloc, lacking.as_slice(), right)?,
            left: copy_of(alloc, left)?,
            right: copy_of(alloc, right)?,
            variables: Vars::new(append(alloc, left, lacking.as_slice())?),
        })
    }

    /// The variables of a glued row: the left ones, and then the right ones that the left lacks.
    pub fn variables(&self) -> &Vars
        ensures { result.now ≡ glued_variables self.now.left self.now.right }
    {
        &self.variables
    }

    /// The left values, and then the right's values of variables that the left lacks.
    pub fn glue(&self, alloc: Global, left: &Row, right: &Row) -> Result<Row, AllocError>
        requires left { length left.now ≡ length self.now.left }
        requires right { length right.now ≡ length self.now.right }
        ensures values { IfOk result (λ g. g ≡ left.now ++ lacked_values self.now.left self.now.right right.now) }
        ensures bindings { IfOk result (λ g. over (glued_variables self.now.left self.now.right) g ≡ glue (over self.now.left left.now) (over self.now.right right.now)) }
    {
        let mut values = copy_values(alloc, left.values())?;
        gather(right.values(), self.lacked.as_slice(), &mut values)?;
        Ok(Row::new(values))
    }

    fn key_positions(&self, side: Side) -> &[usize]
        ensures positions { result.now ≡ key_positions side self.now }
        ensures short { length (glued_variables self.now.left self.now.right) ≤ Vars.MOST }
    {
        match side {
            Side::Left => self.left_key.as_slice(),
            Side::Right => self.right_key.as_slice(),
        }
    }

    /// Writes the key of a side's row: the encoding of its values of the variables that both sides have, in the
    /// left side's order. It takes no memory.
    pub fn key_of(&self, side: Side, row: &Row, room: &mut KeyRoom)
        requires width { length row.now ≡ length (vars_of side self.now) }
        ensures key { room.new ≡ row_encoding (key_row side self.now row.now) }
    {
        room.write(row, self.key_positions(side));
    }
}
