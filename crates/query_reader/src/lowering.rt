//! The query that is written so: relations by their positions in the catalogue, variables by their numbers.

ghost use Rattle.std.specs.Prelude.{◌≡◌, ◌≤◌, ◌<◌, ◌^◌, length, map, IfOk};
ghost use Rattle.query_reader.specs.Limits.{most_variables};
ghost use Rattle.query_reader.specs.Reading.{atom_of, comparison_of, query_of_pieces, relation_index, term_of};
ghost use Rattle.query_reader.specs.Mentions.{number_named};

use crate::mentions::Names;
use crate::parts::Occurrence;
use crate::pieces::Pieces;
use crate::relations::Directory;
use med_prelude::Listed;
use query_core::{Atom, Query};
use query_syntax::{NamedTerm, WrittenAtom, WrittenComparison, WrittenTerm};
use row_match::{Comparison, Term};
use std::alloc::{AllocError, Global};

#[tactic(auto, using(crate::proofs::FirstLaws::number_within))]
fn number_of(variables: &Names<'_, u64>, name: &str) -> u32
    requires few { length variables.now ≤ most_variables }
    ensures { result ≡ number_named variables.now name.now }
{
    variables.number_of(name) as u32
}

fn term_of(
    alloc: Global,
    variables: &Names<'_, u64>,
    written: &NamedTerm,
) -> Result<Term, AllocError>
    requires few { length variables.now ≤ most_variables }
    ensures { IfOk result (λ term. term ≡ term_of variables.now written.now) }
{
    match written {
        NamedTerm::Variable(name) => Ok(Term::Variable(number_of(variables, name.as_str()))),
        NamedTerm::Constant(constant) => Ok(Term::Constant(constant.clone()?)),
    }
}

fn terms_of(
    alloc: Global,
    variables: &Names<'_, u64>,
    terms: &[WrittenTerm],
) -> Result<Listed<Term>, AllocError>
    requires few { length variables.now ≤ most_variables }
    ensures { IfOk result (λ made. made ≡ map (λ term. term_of variables.now term.written) terms.now) }
{
    let mut made = Listed::new(alloc);
    for term in terms {
        made.push(term_of(alloc, variables, &term.written)?)?;
    }
    Ok(made)
}

#[tactic(auto, using(crate::proofs::FirstLaws::position_within))]
fn relation_of(directory: &Directory<'_>, name: &str) -> u32
    requires few { length directory.now < 2 ^ 32 }
    ensures { result ≡ relation_index directory.now name.now }
{
    directory.position_of(name) as u32
}

fn atom_of(
    alloc: Global,
    directory: &Directory<'_>,
    variables: &Names<'_, u64>,
    atom: &WrittenAtom,
) -> Result<Atom, AllocError>
    requires relations { length directory.now < 2 ^ 32 }
    requires few { length variables.now ≤ most_variables }
    ensures { IfOk result (λ made. made ≡ atom_of directory.now variables.now atom.now) }
{
    Ok(Atom {
        relation: relation_of(directory, atom.relation.name.as_str()),
        terms: terms_of(alloc, variables, atom.terms.as_slice())?,
    })
}

fn atoms_of(
    alloc: Global,
    directory: &Directory<'_>,
    variables: &Names<'_, u64>,
    atoms: &[&WrittenAtom],
) -> Result<Listed<Atom>, AllocError>
    requires relations { length directory.now < 2 ^ 32 }
    requires few { length variables.now ≤ most_variables }
    ensures { IfOk result (λ made. made ≡ map (atom_of directory.now variables.now) (map (λ a. a.now) atoms.now)) }
{
    let mut made = Listed::new(alloc);
    for atom in atoms {
        made.push(atom_of(alloc, directory, variables, atom)?)?;
    }
    Ok(made)
}

fn comparison_of(
    alloc: Global,
    variables: &Names<'_, u64>,
    comparison: &WrittenComparison,
) -> Result<Comparison, AllocError>
    requires few { length variables.now ≤ most_variables }
    ensures { IfOk result (λ made. made ≡ comparison_of variables.now comparison.now) }
{
    Ok(Comparison {
        left: Term::Variable(number_of(variables, comparison.left.name.as_str())),
        op: comparison.op,
        right: term_of(alloc, variables, &comparison.right.written)?,
    })
}

fn comparisons_of(
    alloc: Global,
    variables: &Names<'_, u64>,
    comparisons: &[&WrittenComparison],
) -> Result<Listed<Comparison>, AllocError>
    requires few { length variables.now ≤ most_variables }
    ensures { IfOk result (λ made. made ≡ map (comparison_of variables.now) (map (λ c. c.now) comparisons.now)) }
{
    let mut made = Listed::new(alloc);
    for comparison in comparisons {
        made.push(comparison_of(alloc, variables, comparison)?)?;
    }
    Ok(made)
}

fn head_of(
    alloc: Global,
    variables: &Names<'_, u64>,
    head: &[Occurrence<'_>],
) -> Result<Listed<u32>, AllocError>
    requires few { length variables.now ≤ most_variables }
    ensures { IfOk result (λ made. made ≡ map (λ variable. number_named variables.now variable.0) head.now) }
{
    let mut made = Listed::new(alloc);
    for variable in head {
        made.push(number_of(variables, variable.name()))?;
    }
    Ok(made)
}

/// The query that is written so.
pub fn query_of_pieces(
    alloc: Global,
    directory: &Directory<'_>,
    pieces: &Pieces<'_>,
) -> Result<Query, AllocError>
    requires relations { length directory.now < 2 ^ 32 }
    requires few { length pieces.now.variables ≤ most_variables }
    ensures { IfOk result (λ query. query ≡ query_of_pieces directory.now pieces.now) }
{
    let variables = pieces.variables();
    Ok(Query {
        head: head_of(alloc, variables, pieces.head())?,
        atoms: atoms_of(alloc, directory, variables, pieces.atoms())?,
        comparisons: comparisons_of(alloc, variables, pieces.comparisons())?,
    })
}
