//! The kinds of terms, and the check that they agree.

ghost use Rattle.std.specs.Prelude.{◌≡◌, ◌++◌, nat_le, map, flat_map, IfOk, OnOk};
ghost use Rattle.query_reader.specs.Checks.{comparison_offset, kind_offsets};
ghost use Rattle.query_reader.specs.Kinds.{is_clash, columns_of, differ, kind_of, is_misfit, same_kind, term_kind, terms_with_kinds, typed_terms, variable_kinds};
ghost use Rattle.query_reader.specs.Parts.{mentions_of};
ghost use Rattle.text_reading.specs.Faults.{each_where};
ghost use Rattle.text_reading.specs.Order.{least};

use crate::mentions::{Mention, Names, first_mentions};
use crate::parts::push_mention;
use crate::relations::Directory;
use query_syntax::{NamedTerm, WrittenAtom, WrittenComparison, WrittenTerm};
use std::alloc::{AllocError, Global};
use std::marker::Model;
use text_reading::lesser;
use tuple_core::{Column, Kind, Value};

/// A term of an atom, and the kind of its column.
#[derive(Drop)]
struct TypedTerm<'a> {
    term: &'a WrittenTerm,
    kind: Kind,
}

impl<'a> Model for TypedTerm<'a> {
    ghost use Rattle.query_syntax.specs.declared.syntax.WrittenTerm.{WrittenTerm as AWrittenTerm};
    ghost use Rattle.tuple_core.specs.declared.columns.Kind.{Kind as AKind};

    ghost Value = { AWrittenTerm × AKind };

    ghost view = { λ t. (t.term.now, t.kind) };
}

fn push_typed<'a>(
    all: &mut Vec<TypedTerm<'a>>,
    terms: &'a [WrittenTerm],
    columns: &[Column],
) -> Result<(), AllocError>
    ensures { OnOk result (all.new.items ≡ all.old.items ++ terms_with_kinds terms.now columns.now) }
{
    for (position, term) in terms.iter().enumerate() {
        match columns.get(position) {
            Some(column) => all.push(TypedTerm {
                term,
                kind: column.kind,
            })?,
            None => return Ok(()),
        }
    }
    Ok(())
}

/// The terms of all atoms, each with the kind of its column.
fn typed_terms<'a>(
    alloc: Global,
    directory: &Directory<'_>,
    atoms: &[&'a WrittenAtom],
) -> Result<Vec<TypedTerm<'a>>, AllocError>
    ensures { IfOk result (λ terms. terms.items ≡ typed_terms directory.now (map (λ a. a.now) atoms.now)) }
{
    let mut all = Vec::new(alloc);
    for atom in atoms {
        push_typed(&mut all, atom.terms.as_slice(), directory.columns_of(atom))?;
    }
    Ok(all)
}

fn variable_kinds<'a>(
    alloc: Global,
    terms: &[TypedTerm<'a>],
) -> Result<Vec<Mention<'a, Kind>>, AllocError>
    ensures { IfOk result (λ kinds. kinds.items ≡ variable_kinds terms.now) }
{
    let mut kinds = Vec::new(alloc);
    for typed in terms {
        push_mention(&mut kinds, typed.kind, &typed.term.written)?;
    }
    Ok(kinds)
}

fn kind_of(value: &Value) -> Kind
    ensures { result ≡ kind_of value.now }
{
    match value {
        Value::Int(_) => Kind::Int,
        Value::Text(_) => Kind::Text,
        Value::Bool(_) => Kind::Bool,
    }
}

fn same_kind(a: Kind, b: Kind) -> bool
    ensures { result ≡ same_kind a b }
{
    a == b
}

fn differ(a: Option<Kind>, b: Option<Kind>) -> bool
    ensures { result ≡ differ a b }
{
    match (a, b) {
        (Some(a), Some(b)) => !same_kind(a, b),
        (Some(_), None) | (None, _) => false,
    }
}

fn term_kind(kinds: &Names<'_, Kind>, written: &NamedTerm) -> Option<Kind>
    ensures { result ≡ term_kind kinds.now written.now }
{
    match written {
        NamedTerm::Variable(name) => kinds.value_of(name.as_str()),
        NamedTerm::Constant(constant) => Some(kind_of(constant)),
    }
}

/// The least offset of a term whose kind isn't its column's.
fn misfit_offset(kinds: &Names<'_, Kind>, terms: &[TypedTerm<'_>]) -> Option<u64>
    ensures { result ≡ least nat_le (each_where (is_misfit kinds.now) (λ t. t.0.at) terms.now) }
{
    let mut least = None;
    for typed in terms {
        if differ(term_kind(kinds, &typed.term.written), Some(typed.kind)) {
            least = lesser(least, Some(typed.term.at));
        }
    }
    least
}

fn is_clash(kinds: &Names<'_, Kind>, comparison: &WrittenComparison) -> bool
    ensures { result ≡ is_clash kinds.now comparison.now }
{
    differ(
        kinds.value_of(comparison.left.name.as_str()),
        term_kind(kinds, &comparison.right.written),
    )
}

/// The least offset of a comparison whose sides have kinds that differ.
fn clash_offset(kinds: &Names<'_, Kind>, comparisons: &[&WrittenComparison]) -> Option<u64>
    ensures { result ≡ least nat_le (each_where (is_clash kinds.now) comparison_offset (map (λ c. c.now) comparisons.now)) }
{
    let mut least = None;
    for comparison in comparisons {
        if is_clash(kinds, comparison) {
            least = lesser(least, Some(comparison.left.at));
        }
    }
    least
}

/// The least offset where kinds don't agree, of terms and comparisons together.
pub fn kind_offset(
    alloc: Global,
    directory: &Directory<'_>,
    atoms: &[&WrittenAtom],
    comparisons: &[&WrittenComparison],
) -> Result<Option<u64>, AllocError>
    ensures { IfOk result (λ at. at ≡ least nat_le (kind_offsets directory.now (map (λ a. a.now) atoms.now) (map (λ c. c.now) comparisons.now))) }
{
    let terms = typed_terms(alloc, directory, atoms)?;
    let kinds = variable_kinds(alloc, terms.as_slice())?;
    let kinds = first_mentions(alloc, kinds.as_slice())?;
    let misfit = misfit_offset(&kinds, terms.as_slice());
    Ok(lesser(misfit, clash_offset(&kinds, comparisons)))
}
