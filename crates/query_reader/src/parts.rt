//! The atoms, the comparisons and the variables of a query as it is written, each in the text's order.

ghost use Rattle.std.specs.Prelude.{◌≡◌, [], ◌∷◌, ◌++◌, map, flat_map, IfOk, OnOk};
ghost use Rattle.std.specs.List.{filter_map};
ghost use Rattle.query_reader.specs.Parts.{atom_in, atom_variables, comparison_in, comparison_variables, mentions_of, word_occurrence, part_variables, term_variables, variables_of};

use crate::mentions::Mention;
use query_syntax::{NamedTerm, Part, Syntax, Word, WrittenAtom, WrittenComparison, WrittenTerm};
use std::alloc::{AllocError, Global};

/// A variable with the offset where it stands.
pub type Occurrence<'a> = Mention<'a, u64>;

pub fn atoms_of(alloc: Global, parts: &[Part]) -> Result<Vec<&WrittenAtom>, AllocError>
    ensures { IfOk result (λ atoms. map (λ a. a.now) atoms.items ≡ filter_map atom_in parts.now) }
{
    let mut atoms = Vec::new(alloc);
    for part in parts {
        match part {
            Part::Atom(atom) => atoms.push(atom)?,
            Part::Comparison(_) => {}
        }
    }
    Ok(atoms)
}

pub fn comparisons_of(alloc: Global, parts: &[Part]) -> Result<Vec<&WrittenComparison>, AllocError>
    ensures { IfOk result (λ comparisons. map (λ c. c.now) comparisons.items ≡ filter_map comparison_in parts.now) }
{
    let mut comparisons = Vec::new(alloc);
    for part in parts {
        match part {
            Part::Atom(_) => {}
            Part::Comparison(comparison) => comparisons.push(comparison)?,
        }
    }
    Ok(comparisons)
}

/// Puts the name of a variable at the end, with what is said of it.
pub fn push_mention<'a, V: Copy>(
    all: &mut Vec<Mention<'a, V>>,
    value: V,
    written: &'a NamedTerm,
) -> Result<(), AllocError>
    ensures { OnOk result (all.new.items ≡ all.old.items ++ mentions_of value written.now) }
{
    match written {
        NamedTerm::Variable(name) => Ok(all.push(Mention::new(name.as_str(), value))?),
        NamedTerm::Constant(_) => Ok(()),
    }
}

fn push_word<'a>(variables: &mut Vec<Occurrence<'a>>, word: &'a Word) -> Result<(), AllocError>
    ensures { OnOk result (variables.new.items ≡ variables.old.items ++ word_occurrence word.now ∷ []) }
{
    Ok(variables.push(Mention::new(word.name.as_str(), word.at))?)
}

fn push_terms<'a>(
    variables: &mut Vec<Occurrence<'a>>,
    terms: &'a [WrittenTerm],
) -> Result<(), AllocError>
    ensures { OnOk result (variables.new.items ≡ variables.old.items ++ flat_map term_variables terms.now) }
{
    for term in terms {
        push_mention(variables, term.at, &term.written)?;
    }
    Ok(())
}

fn push_comparison<'a>(
    variables: &mut Vec<Occurrence<'a>>,
    comparison: &'a WrittenComparison,
) -> Result<(), AllocError>
    ensures { OnOk result (variables.new.items ≡ variables.old.items ++ comparison_variables comparison.now) }
{
    push_word(variables, &comparison.left)?;
    push_mention(variables, comparison.right.at, &comparison.right.written)
}

fn push_part<'a>(variables: &mut Vec<Occurrence<'a>>, part: &'a Part) -> Result<(), AllocError>
    ensures { OnOk result (variables.new.items ≡ variables.old.items ++ part_variables part.now) }
{
    match part {
        Part::Atom(atom) => push_terms(variables, atom.terms.as_slice()),
        Part::Comparison(comparison) => push_comparison(variables, comparison),
    }
}

/// The head's variables.
pub fn head_variables(alloc: Global, head: &[Word]) -> Result<Vec<Occurrence<'_>>, AllocError>
    ensures { IfOk result (λ variables. variables.items ≡ map word_occurrence head.now) }
{
    let mut variables = Vec::new(alloc);
    for word in head {
        push_word(&mut variables, word)?;
    }
    Ok(variables)
}

/// The variables that are in an atom.
pub fn bound_variables<'a>(
    alloc: Global,
    atoms: &[&'a WrittenAtom],
) -> Result<Vec<Occurrence<'a>>, AllocError>
    ensures { IfOk result (λ variables. variables.items ≡ flat_map atom_variables (map (λ a. a.now) atoms.now)) }
{
    let mut variables = Vec::new(alloc);
    for atom in atoms {
        push_terms(&mut variables, atom.terms.as_slice())?;
    }
    Ok(variables)
}

/// The variables that are in a comparison.
pub fn compared_variables<'a>(
    alloc: Global,
    comparisons: &[&'a WrittenComparison],
) -> Result<Vec<Occurrence<'a>>, AllocError>
    ensures { IfOk result (λ variables. variables.items ≡ flat_map comparison_variables (map (λ c. c.now) comparisons.now)) }
{
    let mut variables = Vec::new(alloc);
    for comparison in comparisons {
        push_comparison(&mut variables, comparison)?;
    }
    Ok(variables)
}

/// All variables, the head's first.
pub fn variables_of(alloc: Global, syntax: &Syntax) -> Result<Vec<Occurrence<'_>>, AllocError>
    ensures { IfOk result (λ variables. variables.items ≡ variables_of syntax.now) }
{
    let mut variables = head_variables(alloc, syntax.head.as_slice())?;
    for part in syntax.parts.as_slice() {
        push_part(&mut variables, part)?;
    }
    Ok(variables)
}
