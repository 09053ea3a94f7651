//! What a query reads: the groups of its atoms' relations, and the mirrors of these.

ghost use Rattle.std.specs.Prelude.{◌≡◌, ◌++◌, ◌≤◌, flat_map, map, slice_get, IfOk, OnOk, Some};
ghost use Rattle.answer_theory.specs.Bags.{numbers_from};
ghost use Rattle.cat_reader.specs.Accepted.{KeepsLimits};
ghost use Rattle.plan_checker.specs.Members.{group_name, groups_at, groups_of, member_name, members_at, members_of, mirror_count, relation_mirrors};
ghost use Rattle.plan_checker.specs.Uses.{atom_numbers};

use crate::unknown::group_count;
use cat_reader::{Catalogue, Relation};
use med_base::{GroupName, MemberName};
use med_prelude::Listed;
use query_core::Query;
use std::alloc::{AllocError, Global};

fn push_groups(groups: &mut Listed<GroupName>, atom: u32, count: u32) -> Result<(), AllocError>
    ensures { OnOk result (groups.new ≡ groups.old ++ map (group_name atom) (numbers_from 1 count)) }
{
    for index in 0..count {
        groups.push(GroupName {
            atom,
            group: index + 1,
        })?;
    }
    Ok(())
}

/// The groups of each atom's relation, in the order of the atoms.
pub fn groups_of(
    alloc: Global,
    query: &Query,
    catalogue: &Catalogue,
    atoms: &[u32],
) -> Result<Listed<GroupName>, AllocError>
    requires atoms { atoms.now ≡ atom_numbers query.now }
    requires limits { KeepsLimits catalogue.now }
    ensures { IfOk result (λ groups. groups ≡ groups_of query.now catalogue.now) }
{
    let mut groups = Listed::new(alloc);
    for atom in atoms {
        push_groups(
            &mut groups,
            *atom,
            group_count(query, catalogue, *atom) as u32,
        )?;
    }
    Ok(groups)
}

/// How many mirrors the group of a relation's index has.
fn relation_mirrors(catalogue: &Catalogue, relation: u32, group: u32) -> usize
    ensures { result ≡ relation_mirrors group (slice_get catalogue.now relation) }
{
    match catalogue.as_slice().get(relation as usize) {
        Some(relation) => mirrors_in(relation, group),
        None => 0,
    }
}

fn mirrors_in(relation: &Relation, group: u32) -> usize
    ensures { result ≡ relation_mirrors group (Some relation.now) }
{
    match relation
        .groups
        .as_slice()
        .get(group.saturating_sub(1) as usize)
    {
        Some(mirrors) => mirrors.len(),
        None => 0,
    }
}

fn mirror_count(query: &Query, catalogue: &Catalogue, group: GroupName) -> usize
    ensures { result ≡ mirror_count query.now catalogue.now group }
{
    match query
        .atoms
        .as_slice()
        .get(group.atom.saturating_sub(1) as usize)
    {
        Some(atom) => relation_mirrors(catalogue, atom.relation, group.group),
        None => 0,
    }
}

fn push_members(
    members: &mut Listed<MemberName>,
    group: GroupName,
    count: u32,
) -> Result<(), AllocError>
    ensures { OnOk result (members.new ≡ members.old ++ map (member_name group) (numbers_from 1 count)) }
{
    for index in 0..count {
        members.push(MemberName {
            atom: group.atom,
            group: group.group,
            mirror: index + 1,
        })?;
    }
    Ok(())
}

/// The mirrors of each group, in the order of the groups.
pub fn members_of(
    alloc: Global,
    query: &Query,
    catalogue: &Catalogue,
    groups: &[GroupName],
) -> Result<Listed<MemberName>, AllocError>
    requires limits { KeepsLimits catalogue.now }
    ensures { IfOk result (λ members. members ≡ flat_map (members_at query.now catalogue.now) groups.now) }
{
    let mut members = Listed::new(alloc);
    for group in groups {
        push_members(
            &mut members,
            *group,
            mirror_count(query, catalogue, *group) as u32,
        )?;
    }
    Ok(members)
}
