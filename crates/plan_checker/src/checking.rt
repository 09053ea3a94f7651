//! The check of a plan against a query and its catalogue.

ghost use Rattle.std.specs.Prelude.{◌≡◌, ◌≤◌, length, None, IfOk};
ghost use Rattle.answer_theory.specs.Bags.{SameBag};
ghost use Rattle.cat_reader.specs.Accepted.{KeepsLimits};
ghost use Rattle.plan_checker.specs.Checking.{AnswersChecked, checked_of, checks_of, kept_of};
ghost use Rattle.plan_checker.specs.Covers.{CoversQuery, whole_tree};
ghost use Rattle.plan_checker.specs.Solving.{Solves, tested_in};
ghost use Rattle.plan_checker.specs.Uses.{where_early, where_misused, where_missing, where_unknown, where_used_twice};
ghost use Rattle.plan_reader.specs.Locations.{is_up_to};
ghost use Rattle.query_reader.specs.Fitting.{FitsCatalogue};
ghost use Rattle.text_reading.specs.Checks.{first_broken, told_first};
ghost use Rattle.text_reading.specs.Order.{least};

use crate::filling::filled;
use crate::members::{groups_of, members_of};
use crate::misused::{early_location, missing_location, misused_location, used_twice_location};
use crate::places::places;
use crate::unknown::unknown_location;
use crate::uses::{atom_numbers, atoms_used, fragments_used, joins_used, nodes_in, numbers_of};
use cat_reader::Catalogue;
use med_base::{GroupName, MemberName, Name};
use med_prelude::Listed;
use plan_reader::{Location, Plan, PlanFault, own_fault};
use query_core::Query;
use std::alloc::{AllocError, Global};
use text_reading::{Broken, told_first};

/// A plan that covers a query, with what is read for the query. Only `check_plan` makes one.
#[derive(Debug, Drop)]
pub struct Checked {
    plan: Plan,
    places: Listed<Name>,
    groups: Listed<GroupName>,
    members: Listed<MemberName>,
}

impl Checked {
    /// The plan, which has a fragment.
    pub fn plan(&self) -> &Plan
        ensures { result.now ≡ self.now.plan }
    {
        &self.plan
    }

    /// For each comparison of the query, the atom or the join where it is tested.
    pub fn places(&self) -> &[Name]
        ensures { result.now ≡ self.now.places }
    {
        self.places.as_slice()
    }

    /// The groups of each atom's relation, in the order of the atoms.
    pub fn groups(&self) -> &[GroupName]
        ensures { result.now ≡ self.now.groups }
    {
        self.groups.as_slice()
    }

    /// The mirrors of each group, in the order of the groups.
    pub fn members(&self) -> &[MemberName]
        ensures { result.now ≡ self.now.members }
    {
        self.members.as_slice()
    }
}

/// The least locations that break the checks against a query.
#[derive(Clone, Copy)]
struct Breaks {
    unknown: Option<Location>,
    missing: Option<Location>,
    used_twice: Option<Location>,
    misused: Option<Location>,
    early: Option<Location>,
}

impl Breaks {
    /// The first check that is broken.
    fn first(self) -> Option<Broken<Location>>
        ensures { result ≡ told_first 4 self.unknown (told_first 5 self.missing (told_first 6 self.used_twice (told_first 7 self.misused (told_first 8 self.early None)))) }
    {
        let told = told_first(7, self.misused, told_first(8, self.early, None));
        let told = told_first(5, self.missing, told_first(6, self.used_twice, told));
        told_first(4, self.unknown, told)
    }
}

/// What a plan with fragments breaks of the checks against a query.
fn broken_by(
    alloc: Global,
    query: &Query,
    catalogue: &Catalogue,
    plan: &Plan,
) -> Result<Breaks, AllocError>
    requires few { length query.now.atoms ≤ 8 }
    ensures unknown { IfOk result (λ b. b.unknown ≡ least is_up_to (where_unknown query.now catalogue.now plan.now)) }
    ensures missing { IfOk result (λ b. b.missing ≡ least is_up_to (where_missing query.now plan.now)) }
    ensures used_twice { IfOk result (λ b. b.used_twice ≡ least is_up_to (where_used_twice query.now plan.now)) }
    ensures misused { IfOk result (λ b. b.misused ≡ least is_up_to (where_misused plan.now)) }
    ensures early { IfOk result (λ b. b.early ≡ least is_up_to (where_early plan.now)) }
{
    let fragments = plan.fragments.as_slice();
    let nodes = nodes_in(alloc, fragments)?;
    let numbers = numbers_of(alloc, fragments)?;
    let atoms = atom_numbers(alloc, query.atoms.len() as u32)?;
    let used = atoms_used(alloc, nodes.as_slice())?;
    let taken = fragments_used(alloc, nodes.as_slice())?;
    let joins = joins_used(alloc, nodes.as_slice())?;
    let (atoms, used) = (atoms.as_slice(), used.as_slice());
    let numbers = numbers.as_slice();
    Ok(Breaks {
        unknown: unknown_location(alloc, query, catalogue, plan, numbers, joins.as_slice())?,
        missing: missing_location(used, atoms),
        used_twice: used_twice_location(used, atoms),
        misused: misused_location(taken.as_slice(), numbers),
        early: early_location(alloc, numbers, fragments)?,
    })
}

/// The first check that a plan with fragments breaks, at the least location that breaks it.
fn first_fault(
    alloc: Global,
    query: &Query,
    catalogue: &Catalogue,
    plan: &Plan,
) -> Result<Option<Broken<Location>>, AllocError>
    requires few { length query.now.atoms ≤ 8 }
    ensures { IfOk result (λ broken. broken ≡ first_broken is_up_to (checks_of query.now catalogue.now plan.now)) }
{
    match own_fault(alloc, plan)? {
        Some(broken) => Ok(Some(broken)),
        None => Ok(broken_by(alloc, query, catalogue, plan)?.first()),
    }
}

/// What is kept of a plan that breaks no check.
fn kept_plan(
    alloc: Global,
    query: &Query,
    catalogue: &Catalogue,
    plan: Plan,
) -> Result<Checked, AllocError>
    requires few { length query.now.atoms ≤ 8 }
    requires limits { KeepsLimits catalogue.now }
    ensures { IfOk result (λ checked. checked ≡ kept_of query.now catalogue.now plan) }
{
    let atoms = atom_numbers(alloc, query.atoms.len() as u32)?;
    let places = places(alloc, query, plan.fragments.as_slice())?;
    let groups = groups_of(alloc, query, catalogue, atoms.as_slice())?;
    let members = members_of(alloc, query, catalogue, groups.as_slice())?;
    Ok(Checked {
        plan,
        places,
        groups,
        members,
    })
}

fn found_of_plan(
    alloc: Global,
    query: &Query,
    catalogue: &Catalogue,
    plan: Plan,
) -> Result<Checked, PlanFault>
    requires some { 1 ≤ length query.now.atoms }
    requires few { length query.now.atoms ≤ 8 }
    requires limits { KeepsLimits catalogue.now }
    ensures { AnswersChecked result (checked_of query.now catalogue.now plan) }
{
    let plan = filled(alloc, query.atoms.len() as u32, plan)?;
    match first_fault(alloc, query, catalogue, &plan)? {
        Some(broken) => Err(PlanFault::from(broken)),
        None => Ok(kept_plan(alloc, query, catalogue, plan)?),
    }
}

/// Checks that a plan covers the query, and places each comparison; or tells the first check that it breaks, with the
/// least part and item that break it. A plan that names no fragment gets one of all atoms first.
pub fn check_plan(
    alloc: Global,
    query: &Query,
    catalogue: &Catalogue,
    plan: Plan,
) -> Result<Checked, PlanFault>
    requires fits { FitsCatalogue catalogue.now query.now }
    requires limits { KeepsLimits catalogue.now }
    ensures finds { AnswersChecked result (checked_of query.now catalogue.now plan) }
    ensures covers { IfOk result (λ checked. CoversQuery (length query.now.atoms) checked.plan.fragments) }
    ensures places { IfOk result (λ checked. length checked.places ≡ length query.now.comparisons) }
    ensures tests { IfOk result (λ checked. SameBag (tested_in query.now.comparisons checked.places (whole_tree checked.plan.fragments)) query.now.comparisons) }
    ensures solves { IfOk result (λ checked. Solves query.now checked.plan.fragments checked.places) }
{
    found_of_plan(alloc, query, catalogue, plan)
}
