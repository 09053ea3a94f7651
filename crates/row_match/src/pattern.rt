//! Patterns: an atom's list of constants and variables, prepared for matching.

ghost use Rattle.std.specs.Prelude.{◌≡◌, ◌≤◌, map, length, IfOk, OnOk};
ghost use Rattle.row_match.specs.Patterns.{pattern_variables};
ghost use Rattle.row_match.specs.Prepared.{position_for, variables_with_term};

use crate::vars::{Vars, position_of};
use std::alloc::{AllocError, Global};
use std::marker::Model;
use tuple_core::Value;

/// What an atom asks of a column.
#[derive(Debug, Drop)]
pub enum Term {
    Constant(Value),
    /// A variable by its number.
    Variable(u32),
}

// A column's term, and the position among the row's kept values of a variable that stood before.
#[derive(Debug, Drop)]
pub(crate) struct ColumnTerm {
    pub(crate) term: Term,
    pub(crate) position: Option<usize>,
}

/// An atom's list of constants and variables, one for each column. It is made once for an atom, and then
/// matched with each of the atom's rows.
#[derive(Debug, Drop)]
pub struct Pattern {
    pub(crate) columns: Vec<ColumnTerm>,
    variables: Vars,
}

impl Model for Pattern {
    ghost use Rattle.std.specs.Prelude.{List, ◌≡◌, ◌≤◌, map, length};
    ghost use Rattle.row_match.specs.declared.pattern.Term.{Term};
    ghost use Rattle.row_match.specs.Prepared.{terms_of, IsPrepared};

    ghost Value = { List Term };

    ghost view = { λ p. terms_of p.columns.items };

    ghost invariant = { λ p. IsPrepared p.columns.items p.variables };
}

// The position of the term's variable, which is put at the end of the variables where it is new.
fn position_for(variables: &mut Vec<u32>, term: &Term) -> Result<Option<usize>, AllocError>
    ensures position { IfOk result (λ position. position ≡ position_for variables.old.items term.now) }
    ensures named { OnOk result (variables.new.items ≡ variables_with_term variables.old.items term.now) }
{
    let Term::Variable(variable) = term else {
        return Ok(None);
    };
    let position = position_of(variables.as_slice(), *variable);
    if position.is_none() {
        variables.push(*variable)?;
    }
    Ok(position)
}

impl Pattern {
    pub fn new(alloc: Global, terms: Vec<Term>) -> Result<Self, AllocError>
        requires short { length terms.items ≤ Vars.MOST }
        ensures { IfOk result (λ pattern. pattern ≡ terms.items) }
    {
        let mut variables = Vec::new(alloc);
        let mut columns = Vec::new(alloc);
        'terms: for term in terms {
            let position = position_for(&mut variables, &term)?;
            columns.push(ColumnTerm { term, position })?;
        }
        Ok(Pattern {
            columns,
            variables: Vars::new(variables),
        })
    }

    /// The variables, in the order of their first occurrence.
    pub fn variables(&self) -> &Vars
        ensures { result.now ≡ pattern_variables self.now }
    {
        &self.variables
    }
}
