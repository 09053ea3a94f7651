//! The checks of a query that keeps the grammar, but for those of kinds.

ghost use Rattle.std.specs.Prelude.{◌≡◌, nat_le, map, flat_map, IfOk};
ghost use Rattle.query_reader.specs.Checks.{atom_offset, checks_of, comparison_offset, is_loose, is_miscounted, limit_offsets, loose_offsets, miscounted_offsets, occurrence_offset, unknown_offsets};
ghost use Rattle.query_reader.specs.Limits.{longest_head, most_atoms, most_comparisons, most_variables};
ghost use Rattle.query_reader.specs.Parts.{comparison_variables};
ghost use Rattle.text_reading.specs.Checks.{first_broken};
ghost use Rattle.text_reading.specs.Faults.{each_where, first_past};
ghost use Rattle.text_reading.specs.Order.{least};

use crate::kinds::kind_offset;
use crate::mentions::{Names, first_mentions};
use crate::parts::{Occurrence, bound_variables, compared_variables};
use crate::pieces::Pieces;
use crate::relations::Directory;
use query_syntax::{WrittenAtom, WrittenComparison};
use std::alloc::{AllocError, Global};
use text_reading::{Broken, lesser, told_first};

const MOST_ATOMS: usize = 8;

const MOST_VARIABLES: usize = 64;

const MOST_COMPARISONS: usize = 32;

const LONGEST_HEAD: usize = 64;

fn is_miscounted(directory: &Directory<'_>, atom: &WrittenAtom) -> bool
    ensures { result ≡ is_miscounted directory.now atom.now }
{
    atom.terms.len() != directory.columns_of(atom).len()
}

fn unknown_offset(directory: &Directory<'_>, atoms: &[&WrittenAtom]) -> Option<u64>
    ensures { result ≡ least nat_le (unknown_offsets directory.now (map (λ a. a.now) atoms.now)) }
{
    let mut least = None;
    for atom in atoms {
        if directory.lacks(atom) {
            least = lesser(least, Some(atom.relation.at));
        }
    }
    least
}

fn miscounted_offset(directory: &Directory<'_>, atoms: &[&WrittenAtom]) -> Option<u64>
    ensures { result ≡ least nat_le (miscounted_offsets directory.now (map (λ a. a.now) atoms.now)) }
{
    let mut least = None;
    for atom in atoms {
        if is_miscounted(directory, atom) {
            least = lesser(least, Some(atom.relation.at));
        }
    }
    least
}

/// The least offset of a variable that isn't among those of atoms.
fn loose_offset(bound: &Names<'_, u64>, occurrences: &[Occurrence<'_>]) -> Option<u64>
    ensures { result ≡ least nat_le (each_where (is_loose bound.now) occurrence_offset occurrences.now) }
{
    let mut least = None;
    for occurrence in occurrences {
        if !bound.has(occurrence.name()) {
            least = lesser(least, Some(occurrence.value()));
        }
    }
    least
}

fn past_atoms(atoms: &[&WrittenAtom]) -> Option<u64>
    ensures { result ≡ least nat_le (first_past most_atoms atom_offset (map (λ a. a.now) atoms.now)) }
{
    match atoms.get(MOST_ATOMS) {
        Some(atom) => Some(atom.relation.at),
        None => None,
    }
}

fn past_comparisons(comparisons: &[&WrittenComparison]) -> Option<u64>
    ensures { result ≡ least nat_le (first_past most_comparisons comparison_offset (map (λ c. c.now) comparisons.now)) }
{
    match comparisons.get(MOST_COMPARISONS) {
        Some(comparison) => Some(comparison.left.at),
        None => None,
    }
}

fn past_variables(variables: &Names<'_, u64>) -> Option<u64>
    ensures { result ≡ least nat_le (first_past most_variables occurrence_offset variables.now) }
{
    variables.value_at(MOST_VARIABLES)
}

fn past_head(head: &[Occurrence<'_>]) -> Option<u64>
    ensures { result ≡ least nat_le (first_past longest_head occurrence_offset head.now) }
{
    match head.get(LONGEST_HEAD) {
        Some(occurrence) => Some(occurrence.value()),
        None => None,
    }
}

/// The least offset that is the first past a limit.
#[tactic(auto, using(text_reading::proofs::OrderLaws::least_append))]
fn limit_offset(pieces: &Pieces<'_>) -> Option<u64>
    ensures { result ≡ least nat_le (limit_offsets pieces.now) }
{
    let at = past_atoms(pieces.atoms());
    let at = lesser(at, past_variables(pieces.variables()));
    let at = lesser(at, past_comparisons(pieces.comparisons()));
    lesser(at, past_head(pieces.head()))
}

/// The least offset of a head variable, and that of a variable of a comparison, that is in no atom.
fn loose_offsets(
    alloc: Global,
    pieces: &Pieces<'_>,
) -> Result<(Option<u64>, Option<u64>), AllocError>
    ensures head { IfOk result (λ offsets. offsets.0 ≡ least nat_le (loose_offsets pieces.now.atoms pieces.now.head)) }
    ensures compared { IfOk result (λ offsets. offsets.1 ≡ least nat_le (loose_offsets pieces.now.atoms (flat_map comparison_variables pieces.now.comparisons))) }
{
    let bound = bound_variables(alloc, pieces.atoms())?;
    let bound = first_mentions(alloc, bound.as_slice())?;
    let compared = compared_variables(alloc, pieces.comparisons())?;
    let head = loose_offset(&bound, pieces.head());
    Ok((head, loose_offset(&bound, compared.as_slice())))
}

/// The first check that is broken, at the least of its offsets.
pub fn first_broken(
    alloc: Global,
    directory: &Directory<'_>,
    pieces: &Pieces<'_>,
) -> Result<Option<Broken<u64>>, AllocError>
    ensures { IfOk result (λ told. told ≡ first_broken nat_le (checks_of directory.now pieces.now)) }
{
    let atoms = pieces.atoms();
    let (head, compared) = loose_offsets(alloc, pieces)?;
    let kinds = kind_offset(alloc, directory, atoms, pieces.comparisons())?;
    let told = told_first(7, limit_offset(pieces), None);
    let told = told_first(6, compared, told);
    let told = told_first(5, head, told);
    let told = told_first(4, kinds, told);
    let told = told_first(3, miscounted_offset(directory, atoms), told);
    Ok(told_first(2, unknown_offset(directory, atoms), told))
}
