//! Filters: comparisons that a row's values must pass.

ghost use Rattle.std.specs.Prelude.{◌≡◌, length, option_map};
ghost use Rattle.std.specs.List.{list_all};
ghost use Rattle.answer_theory.specs.Rows.{over};
ghost use Rattle.row_match.specs.Filters.{side_value, holds_in, all_hold};
ghost use Rattle.tuple_core.specs.Encoded.{value_seen};

use crate::pattern::Term;
use crate::valuation::{RowOver, Valuation};
use crate::vars::Vars;
use std::marker::Model;
use tuple_core::{Op, Row, ValueRef, compare};

/// What a comparison is made of: a value, or a variable by its number.
#[derive(Debug, Drop)]
pub struct Comparison {
    pub left: Term,
    pub op: Op,
    pub right: Term,
}

/// Comparisons over the rows of some variables.
#[derive(Debug, Drop)]
pub struct Filter {
    vars: Vars,
    comparisons: Vec<Comparison>,
}

impl Model for Filter {
    ghost use Rattle.row_match.specs.Filters.{Test};

    ghost Value = { Test };

    ghost view = { λ f. record { vars = f.vars; comparisons = f.comparisons.items } };
}

fn side<'a, V: Valuation>(term: &'a Term, valuation: &'a V) -> Option<ValueRef<'a>>
    ensures { option_map value_seen result ≡ side_value term.now (V.binding valuation.now) }
{
    match term {
        Term::Constant(constant) => Some(constant.seen()),
        Term::Variable(variable) => valuation.value_of(*variable),
    }
}

fn passes<V: Valuation>(comparison: &Comparison, valuation: &V) -> bool
    ensures { result ≡ holds_in comparison.now (V.binding valuation.now) }
{
    match (
        side(&comparison.left, valuation),
        side(&comparison.right, valuation),
    ) {
        (Some(left), Some(right)) => compare(comparison.op, left, right),
        _ => false,
    }
}

/// Whether each comparison holds of the values that the variables have.
pub fn all_hold<V: Valuation>(comparisons: &[Comparison], valuation: &V) -> bool
    ensures { result ≡ all_hold comparisons.now (V.binding valuation.now) }
{
    comparisons
        .iter()
        .all(|comparison| passes(comparison, valuation))
}

impl Filter {
    pub fn new(vars: Vars, comparisons: Vec<Comparison>) -> Self
        ensures vars { result.vars ≡ vars }
        ensures comparisons { result.comparisons ≡ comparisons.items }
    {
        Filter { vars, comparisons }
    }

    /// Whether each comparison holds of the row's values.
    pub fn holds(&self, row: &Row) -> bool
        requires width { length row.now ≡ length self.now.vars }
        ensures { result ≡ all_hold self.now.comparisons (over self.now.vars row.now) }
    {
        let row = RowOver {
            variables: self.vars.as_slice(),
            values: row.values(),
        };
        all_hold(self.comparisons.as_slice(), &row)
    }
}
