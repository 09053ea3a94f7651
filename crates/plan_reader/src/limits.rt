//! The check of trees, and that of numbers and ranges.

ghost use Rattle.std.specs.Prelude.{◌≡◌, nat_le, position, IfOk};
ghost use Rattle.text_reading.specs.Order.{least};
ghost use Rattle.plan_reader.specs.Limits.{fragments_over, is_amount_over, is_bucket_count, is_estimate_over, is_given_over, is_given_policy_over, is_idle_over, is_own_over, is_policy_over, is_quota_over, is_race_over, is_replan_over, is_treeless, treeless_fragments, where_past_limits, where_treeless};
ghost use Rattle.plan_reader.specs.Locations.{is_up_to};

use crate::doubled::first_doubled;
use crate::fragments::{WrittenFragment, join_names};
use crate::location::{Location, located};
use crate::plan::{Fragment, GroupSetting, JoinSetting, Plan, Policy, Replan};
use med_base::Part;
use std::alloc::{AllocError, Global};
use text_reading::{broken_if, index_past, lesser};

const MOST_FRAGMENTS: usize = 8;

const MOST_RULES: usize = 64;

const GREATEST_AMOUNT: u64 = 1 << 60;

const GREATEST_IDLE_LIMIT: u64 = 1_000_000_000;

fn first_treeless(fragments: &[WrittenFragment]) -> Option<usize>
    ensures { result ≡ position is_treeless fragments.now }
{
    fragments
        .iter()
        .position(|fragment| fragment.tree.is_none())
}

/// The least index of a fragment whose text spells no tree, or with a join of a name that stands before.
#[tactic(auto, using(crate::proofs::FormLaws::least_treeless))]
fn treeless_fragment(
    alloc: Global,
    fragments: &[WrittenFragment],
) -> Result<Option<usize>, AllocError>
    ensures { IfOk result (λ index. index ≡ least nat_le (treeless_fragments fragments.now)) }
{
    let names = join_names(alloc, fragments)?;
    let doubled = first_doubled(alloc, names.as_slice())?;
    Ok(lesser(first_treeless(fragments), doubled))
}

/// The least location of a fragment whose tree is refused.
#[tactic(auto, using(crate::proofs::LocationLaws::least_in_part), unfolding(crate::specs::Limits::where_treeless))]
pub fn treeless_location(
    alloc: Global,
    fragments: &[WrittenFragment],
) -> Result<Option<Location>, AllocError>
    ensures { IfOk result (λ found. found ≡ least is_up_to (where_treeless fragments.now)) }
{
    Ok(located(Part::Fragment, treeless_fragment(alloc, fragments)?))
}

fn is_amount_over(amount: u64) -> bool
    ensures { result ≡ is_amount_over amount }
{
    amount > GREATEST_AMOUNT
}

fn is_given_over(amount: Option<u64>) -> bool
    ensures { result ≡ is_given_over amount }
{
    match amount {
        Some(amount) => is_amount_over(amount),
        None => false,
    }
}

fn is_policy_over(policy: Policy) -> bool
    ensures { result ≡ is_policy_over policy }
{
    match policy {
        Policy::Race(rows) => is_amount_over(rows),
        Policy::Only | Policy::First | Policy::All => false,
    }
}

fn is_replan_over(replan: Replan) -> bool
    ensures { result ≡ is_replan_over replan }
{
    match replan {
        Replan::Off(factor) => factor == 0 || is_amount_over(factor),
        Replan::Never | Replan::Always => false,
    }
}

fn is_bucket_count(buckets: u64) -> bool
    ensures { result ≡ is_bucket_count buckets }
{
    buckets == 16 || buckets == 64 || buckets == 256
}

fn is_idle_over(limit: u64) -> bool
    ensures { result ≡ is_idle_over limit }
{
    limit == 0 || limit > GREATEST_IDLE_LIMIT
}

#[tactic(auto, unfolding(crate::specs::Limits::is_own_over))]
fn is_own_over(plan: &Plan) -> bool
    ensures { result ≡ is_own_over plan.now }
{
    !is_bucket_count(plan.buckets)
        || is_amount_over(plan.memory)
        || is_amount_over(plan.spill_limit)
        || is_idle_over(plan.idle_limit)
        || is_policy_over(plan.policy)
        || is_replan_over(plan.replan)
}

fn first_estimate_over(fragments: &[Fragment]) -> Option<usize>
    ensures { result ≡ position is_estimate_over fragments.now }
{
    fragments
        .iter()
        .position(|fragment| is_given_over(fragment.estimate))
}

fn first_quota_over(joins: &[JoinSetting]) -> Option<usize>
    ensures { result ≡ position is_quota_over joins.now }
{
    joins.iter().position(|join| is_given_over(join.quota))
}

fn is_given_policy_over(policy: Option<Policy>) -> bool
    ensures { result ≡ is_given_policy_over policy }
{
    match policy {
        Some(policy) => is_policy_over(policy),
        None => false,
    }
}

fn first_race_over(groups: &[GroupSetting]) -> Option<usize>
    ensures { result ≡ position is_race_over groups.now }
{
    groups
        .iter()
        .position(|group| is_given_policy_over(group.policy))
}

/// The least index of a fragment past their greatest number, or with an estimate out of its range.
#[tactic(auto, using(crate::proofs::LocationLaws::item_append, text_reading::proofs::FaultLaws::least_index))]
fn fragment_over(fragments: &[Fragment]) -> Option<usize>
    ensures { result ≡ least nat_le (fragments_over fragments.now) }
{
    lesser(
        index_past(MOST_FRAGMENTS, fragments.len()),
        first_estimate_over(fragments),
    )
}

/// The least location past a limit.
#[tactic(auto, using(crate::proofs::FormLaws::least_past))]
pub fn limit_location(plan: &Plan) -> Option<Location>
    ensures { result ≡ least is_up_to (where_past_limits plan.now) }
{
    let own = located(Part::Plan, broken_if(is_own_over(plan), 0));
    let fragment = fragment_over(plan.fragments.as_slice());
    let join = first_quota_over(plan.joins.as_slice());
    let group = first_race_over(plan.groups.as_slice());
    let rule = index_past(MOST_RULES, plan.rules.len());
    let found = lesser(own, located(Part::Fragment, fragment));
    let found = lesser(found, located(Part::Join, join));
    let found = lesser(found, located(Part::Group, group));
    lesser(found, located(Part::Rule, rule))
}
