//! A query as it is written, taken apart.

ghost use Rattle.std.specs.Prelude.{◌≡◌, map, IfOk};
ghost use Rattle.query_reader.specs.Parts.{pieces_of};

use crate::mentions::{Names, first_mentions};
use crate::parts::{Occurrence, atoms_of, comparisons_of, head_variables, variables_of};
use query_syntax::{Syntax, WrittenAtom, WrittenComparison};
use std::alloc::{AllocError, Global};
use std::marker::Model;

/// What the checks look at, each in the text's order.
#[derive(Drop)]
pub struct Pieces<'a> {
    head: Vec<Occurrence<'a>>,
    atoms: Vec<&'a WrittenAtom>,
    comparisons: Vec<&'a WrittenComparison>,
    variables: Names<'a, u64>,
}

impl<'a> Model for Pieces<'a> {
    ghost use Rattle.std.specs.Prelude.{map};
    ghost use Rattle.query_reader.specs.Parts.{Pieces as APieces};

    ghost Value = { APieces };

    ghost view = { λ p. record { head = p.head.items; atoms = map (λ a. a.now) p.atoms.items; comparisons = map (λ c. c.now) p.comparisons.items; variables = p.variables } };
}

impl<'a> Pieces<'a> {
    pub fn new(alloc: Global, syntax: &'a Syntax) -> Result<Self, AllocError>
        ensures { IfOk result (λ pieces. pieces ≡ pieces_of syntax.now) }
    {
        let variables = variables_of(alloc, syntax)?;
        Ok(Pieces {
            head: head_variables(alloc, syntax.head.as_slice())?,
            atoms: atoms_of(alloc, syntax.parts.as_slice())?,
            comparisons: comparisons_of(alloc, syntax.parts.as_slice())?,
            variables: first_mentions(alloc, variables.as_slice())?,
        })
    }

    /// The variables of the head.
    pub fn head(&self) -> &[Occurrence<'a>]
        ensures { result.now ≡ self.now.head }
    {
        self.head.as_slice()
    }

    pub fn atoms(&self) -> &[&'a WrittenAtom]
        ensures { map (λ a. a.now) result.now ≡ self.now.atoms }
    {
        self.atoms.as_slice()
    }

    pub fn comparisons(&self) -> &[&'a WrittenComparison]
        ensures { map (λ c. c.now) result.now ≡ self.now.comparisons }
    {
        self.comparisons.as_slice()
    }

    /// All variables, each once.
    pub fn variables(&self) -> &Names<'a, u64>
        ensures { result.now ≡ self.now.variables }
    {
        &self.variables
    }
}
