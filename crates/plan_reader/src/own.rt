//! The checks of a plan by itself, whoever made it.

ghost use Rattle.std.specs.Prelude.{◌≡◌, [], ◌∷◌, map, IfOk};
ghost use Rattle.text_reading.specs.Checks.{first_broken};
ghost use Rattle.text_reading.specs.Order.{least};
ghost use Rattle.plan_reader.specs.Locations.{is_up_to};
ghost use Rattle.plan_reader.specs.Own.{own_checks, own_joins, own_name, rule_name, where_joined_twice, where_named_twice};

use crate::doubled::first_doubled;
use crate::fragments::joins_among;
use crate::limits::limit_location;
use crate::location::{Location, located};
use crate::plan::{Fragment, Plan, WrittenRule};
use med_base::Part;
use med_prelude::Listed;
use std::alloc::{AllocError, Global};
use text_reading::{Broken, lesser, told_first};

fn one<K: Copy>(alloc: Global, name: K) -> Result<Listed<K>, AllocError>
    ensures { IfOk result (λ names. names ≡ name ∷ []) }
{
    let mut names = Listed::new(alloc);
    names.push(name)?;
    Ok(names)
}

fn own_names(alloc: Global, fragments: &[Fragment]) -> Result<Listed<Listed<u32>>, AllocError>
    ensures { IfOk result (λ names. names ≡ map own_name fragments.now) }
{
    let mut names = Listed::new(alloc);
    for fragment in fragments {
        names.push(one(alloc, fragment.number)?)?;
    }
    Ok(names)
}

fn own_joins(alloc: Global, fragments: &[Fragment]) -> Result<Listed<Listed<u32>>, AllocError>
    ensures { IfOk result (λ names. names ≡ map own_joins fragments.now) }
{
    let mut names = Listed::new(alloc);
    for fragment in fragments {
        names.push(joins_among(alloc, fragment.tree.nodes())?)?;
    }
    Ok(names)
}

fn rule_names(alloc: Global, rules: &[WrittenRule]) -> Result<Listed<Listed<&str>>, AllocError>
    ensures { IfOk result (λ names. map (map (λ n. n.now)) names ≡ map rule_name rules.now) }
{
    let mut names = Listed::new(alloc);
    for rule in rules {
        names.push(one(alloc, rule.name.as_str())?)?;
    }
    Ok(names)
}

/// The least location of a fragment or a rule with the name of an earlier one.
fn named_twice(alloc: Global, plan: &Plan) -> Result<Option<Location>, AllocError>
    ensures { IfOk result (λ found. found ≡ least is_up_to (where_named_twice plan.now)) }
{
    let fragments = own_names(alloc, plan.fragments.as_slice())?;
    let rules = rule_names(alloc, plan.rules.as_slice())?;
    let fragment = first_doubled(alloc, fragments.as_slice())?;
    let rule = first_doubled(alloc, rules.as_slice())?;
    Ok(lesser(located(Part::Fragment, fragment), located(Part::Rule, rule)))
}

/// The least location of a fragment with a join that has the name of an earlier one.
#[tactic(auto, using(crate::proofs::LocationLaws::least_in_part), unfolding(crate::specs::Own::where_joined_twice))]
fn joined_twice(alloc: Global, plan: &Plan) -> Result<Option<Location>, AllocError>
    ensures { IfOk result (λ found. found ≡ least is_up_to (where_joined_twice plan.now)) }
{
    let joins = own_joins(alloc, plan.fragments.as_slice())?;
    let fragment = first_doubled(alloc, joins.as_slice())?;
    Ok(located(Part::Fragment, fragment))
}

/// The first check that a plan breaks by itself, at the least location that breaks it: that names differ and numbers are in
/// their ranges. A plan that was read breaks none.
pub fn own_fault(alloc: Global, plan: &Plan) -> Result<Option<Broken<Location>>, AllocError>
    ensures { IfOk result (λ broken. broken ≡ first_broken is_up_to (own_checks plan.now)) }
{
    let told = told_first(11, limit_location(plan), None);
    let told = told_first(3, joined_twice(alloc, plan)?, told);
    Ok(told_first(2, named_twice(alloc, plan)?, told))
}
