//! The check that what a plan names is there: atoms, fragments, joins and groups.

ghost use Rattle.std.specs.List.{list_all};
ghost use Rattle.std.specs.Prelude.{◌≡◌, position, slice_get, IfOk};
ghost use Rattle.answer_theory.specs.Solutions.{names};
ghost use Rattle.text_reading.specs.Order.{least};
ghost use Rattle.plan_reader.specs.Locations.{is_up_to};
ghost use Rattle.plan_checker.specs.Naming.{SameNames};
ghost use Rattle.plan_checker.specs.Uses.{fragments_named, group_count, groups_in, has_group, is_atom, is_unknown_group, is_unknown_join, joins_used, names_unknown, nodes_in, numbers_of, where_unknown};

use crate::uses::{atoms_used, fragments_used, is_named};
use cat_reader::Catalogue;
use indexmap::IndexSet;
use med_base::{GroupName, Part};
use med_prelude::Listed;
use plan_reader::{Fragment, GroupSetting, JoinSetting, Location, Plan, located};
use query_core::Query;
use std::alloc::{AllocError, Global};
use text_reading::lesser;

fn is_atom(atoms: usize, atom: u32) -> bool
    ensures { result ≡ is_atom atoms atom }
{
    1 <= atom && atom as usize <= atoms
}

fn are_atoms(atoms: usize, used: &[u32]) -> bool
    ensures { result ≡ list_all (is_atom atoms) used.now }
{
    used.iter().all(|atom| is_atom(atoms, *atom))
}

/// Whether each of the names is among those that are known.
pub fn are_named(known: &[u32], named: &[u32]) -> bool
    ensures { result ≡ list_all (names known.now) named.now }
{
    named.iter().all(|number| is_named(*number, known))
}

/// The fragments that one takes rows from, or names as those before it.
pub fn fragments_named(alloc: Global, fragment: &Fragment) -> Result<Listed<u32>, AllocError>
    ensures { IfOk result (λ named. named ≡ fragments_named fragment.now) }
{
    let mut named = fragments_used(alloc, fragment.tree.nodes())?.into_vec();
    named.extend_from_slice(fragment.after.as_slice())?;
    Ok(Listed::from_vec(named))
}

fn names_unknown(
    alloc: Global,
    atoms: usize,
    numbers: &[u32],
    fragment: &Fragment,
) -> Result<bool, AllocError>
    ensures { IfOk result (λ unknown. unknown ≡ names_unknown atoms numbers.now fragment.now) }
{
    let used = atoms_used(alloc, fragment.tree.nodes())?;
    let named = fragments_named(alloc, fragment)?;
    Ok(!(are_atoms(atoms, used.as_slice()) && are_named(numbers, named.as_slice())))
}

/// The index of the first fragment that names an atom or a fragment that isn't there.
fn unknown_fragment(
    alloc: Global,
    atoms: usize,
    numbers: &[u32],
    fragments: &[Fragment],
) -> Result<Option<usize>, AllocError>
    ensures { IfOk result (λ index. index ≡ position (names_unknown atoms numbers.now) fragments.now) }
{
    for (index, fragment) in fragments.iter().enumerate() {
        if names_unknown(alloc, atoms, numbers, fragment)? {
            return Ok(Some(index));
        }
    }
    Ok(None)
}

/// The numbers as a set.
fn set_of(alloc: Global, numbers: &[u32]) -> Result<IndexSet<u32>, AllocError>
    ensures { IfOk result (λ set. SameNames set.keys numbers.now) }
{
    let mut set = IndexSet::new(alloc);
    for number in numbers {
        set.insert_full(*number)?;
    }
    Ok(set)
}

fn first_unknown_join(known: &IndexSet<u32>, joins: &[JoinSetting]) -> Option<usize>
    ensures { result ≡ position (is_unknown_join known.now.keys) joins.now }
{
    joins.iter().position(|join| !known.contains(&join.join))
}

/// The index of the first setting of a join that isn't there.
fn unknown_join(
    alloc: Global,
    used: &[u32],
    joins: &[JoinSetting],
) -> Result<Option<usize>, AllocError>
    ensures { IfOk result (λ index. index ≡ position (is_unknown_join used.now) joins.now) }
{
    let known = set_of(alloc, used)?;
    Ok(first_unknown_join(&known, joins))
}

/// How many groups the relation of an index has.
fn groups_in(catalogue: &Catalogue, relation: u32) -> usize
    ensures { result ≡ groups_in (slice_get catalogue.now relation) }
{
    match catalogue.as_slice().get(relation as usize) {
        Some(relation) => relation.groups.len(),
        None => 0,
    }
}

/// How many groups the atom's relation has.
pub fn group_count(query: &Query, catalogue: &Catalogue, atom: u32) -> usize
    ensures { result ≡ group_count query.now catalogue.now atom }
{
    match query.atoms.as_slice().get(atom.saturating_sub(1) as usize) {
        Some(atom) => groups_in(catalogue, atom.relation),
        None => 0,
    }
}

fn has_group(query: &Query, catalogue: &Catalogue, group: GroupName) -> bool
    ensures { result ≡ has_group query.now catalogue.now group }
{
    1 <= group.atom
        && (1 <= group.group && group.group as usize <= group_count(query, catalogue, group.atom))
}

fn unknown_group(query: &Query, catalogue: &Catalogue, groups: &[GroupSetting]) -> Option<usize>
    ensures { result ≡ position (is_unknown_group query.now catalogue.now) groups.now }
{
    groups
        .iter()
        .position(|group| !has_group(query, catalogue, group.group))
}

/// The least location of a name that names nothing.
#[tactic(auto, using(plan_reader::proofs::LocationLaws::location_append, plan_reader::proofs::LocationLaws::least_in_part, text_reading::proofs::FaultLaws::least_index), unfolding(crate::specs::Uses::where_unknown))]
pub fn unknown_location(
    alloc: Global,
    query: &Query,
    catalogue: &Catalogue,
    plan: &Plan,
    numbers: &[u32],
    joins: &[u32],
) -> Result<Option<Location>, AllocError>
    requires numbers { numbers.now ≡ numbers_of plan.now.fragments }
    requires joins { joins.now ≡ joins_used (nodes_in plan.now.fragments) }
    ensures { IfOk result (λ found. found ≡ least is_up_to (where_unknown query.now catalogue.now plan.now)) }
{
    let fragments = plan.fragments.as_slice();
    let fragment = unknown_fragment(alloc, query.atoms.len(), numbers, fragments)?;
    let join = unknown_join(alloc, joins, plan.joins.as_slice())?;
    let group = unknown_group(query, catalogue, plan.groups.as_slice());
    let found = lesser(located(Part::Fragment, fragment), located(Part::Join, join));
    Ok(lesser(found, located(Part::Group, group)))
}
