//! What is read for an atom: a relation whose groups have one mirror each.

ghost use Rattle.std.specs.Prelude.{◌≡◌, IfOk, IfSome, option_map, option_and_then};
ghost use Rattle.cat_reader.specs.Accepted.{IsWithin, KeepsLimits};
ghost use Rattle.query_reader.specs.Fitting.{FitsRelation};
ghost use Rattle.std.specs.List.{AllByRecursion};
ghost use Rattle.med_top.specs.Targets.{IsTargetWithin, one_mirror, only_mirrors, target_for, target_of, targets_for};

use cat_reader::Relation;
use query_core::Atom;
use std::alloc::{AllocError, Global};
use tuple_core::{Columns, Listed, Text, Words};

/// A relation's columns, and the location of the one mirror of each of its groups.
#[derive(Debug, Drop)]
pub struct Target {
    pub columns: Columns,
    pub locations: Words,
}

/// A target for each atom of a query.
pub type Targets = Listed<Target>;

/// What is read for each of the atoms; `None` where a group of a relation has more than one mirror.
pub fn targets_for(
    alloc: Global,
    relations: &[Relation],
    atoms: &[Atom],
) -> Result<Option<Targets>, AllocError>
    ensures { IfOk result (λ targets. targets ≡ targets_for relations.now atoms.now) }
{
    let mut targets = Targets::new(alloc);
    for atom in atoms {
        let Some(target) = target_for(alloc, relations, atom)? else {
            return Ok(None);
        };
        targets.push(target)?;
    }
    Ok(Some(targets))
}

fn target_for(
    alloc: Global,
    relations: &[Relation],
    atom: &Atom,
) -> Result<Option<Target>, AllocError>
    ensures { IfOk result (λ target. target ≡ target_for relations.now atom.now) }
{
    match relations.get(atom.relation as usize) {
        Some(relation) => target_of(alloc, relation),
        None => Ok(None),
    }
}

fn target_of(alloc: Global, relation: &Relation) -> Result<Option<Target>, AllocError>
    ensures { IfOk result (λ target. target ≡ target_of relation.now) }
{
    let Some(locations) = only_mirrors(alloc, relation.groups.as_slice())? else {
        return Ok(None);
    };
    Ok(Some(Target {
        columns: relation.columns.clone()?,
        locations,
    }))
}

fn only_mirrors(alloc: Global, groups: &[Words]) -> Result<Option<Words>, AllocError>
    ensures { IfOk result (λ locations. locations ≡ only_mirrors groups.now) }
{
    let mut locations = Words::new(alloc);
    for group in groups {
        let Some(location) = one_mirror(group.as_slice()) else {
            return Ok(None);
        };
        locations.push(location.clone()?)?;
    }
    Ok(Some(locations))
}

/// The one mirror of a group that has no more.
fn one_mirror(group: &[Text]) -> Option<&Text>
    ensures { option_map (λ location. location.now) result ≡ one_mirror group.now }
{
    match group {
        [location] => Some(location),
        _ => None,
    }
}
