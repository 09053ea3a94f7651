//! The variables that a row's values stand for.

ghost use Rattle.std.specs.Prelude.{◌≡◌, ◌≤◌, length, option_map, slice_get};
ghost use Rattle.answer_theory.specs.Rows.{AreDistinct};
ghost use Rattle.row_match.specs.Patterns.{position_of};

use std::marker::Model;
use tuple_core::Value;

/// At most 64 variables, by their numbers, each once. A row over them has a value for each, in their order.
#[derive(Debug, Drop)]
pub struct Vars {
    variables: Vec<u32>,
}

impl Model for Vars {
    ghost use Rattle.std.specs.Prelude.{List, ℕ};

    ghost Value = { List ℕ };

    ghost use Rattle.row_match.specs.Patterns.{FitsVars};

    ghost view = { λ v. v.variables.items };

    ghost invariant = { λ v. FitsVars v.variables.items };
}

impl Vars {
    /// The most variables that a row is over.
    pub const MOST: usize = 64;

    pub fn new(variables: Vec<u32>) -> Self
        requires distinct { AreDistinct variables.items }
        requires short { length variables.items ≤ Self.MOST }
        ensures { result ≡ variables.items }
    {
        Vars { variables }
    }

    pub fn as_slice(&self) -> &[u32]
        ensures value { result.now ≡ self.now }
        ensures distinct { AreDistinct self.now }
        ensures short { length self.now ≤ Self.MOST }
    {
        self.variables.as_slice()
    }
}

// Where the variable stands.
pub(crate) fn position_of(variables: &[u32], variable: u32) -> Option<usize>
    ensures { result ≡ position_of variables.now variable }
{
    variables.iter().position(|v| *v == variable)
}

pub(crate) fn value_at(row: &[Value], position: usize) -> Option<&Value>
    ensures { option_map (λ v. v.now) result ≡ slice_get row.now position }
{
    row.get(position)
}
