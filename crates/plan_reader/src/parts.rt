//! What a document says as a plan, part by part.

ghost use Rattle.std.specs.Prelude.{◌≡◌, ◌==◌, length, if◌then◌else◌, IfOk};
ghost use Rattle.toml.specs.View.{table_view};
ghost use Rattle.plan_reader.specs.Items.{present};
ghost use Rattle.plan_reader.specs.Parts.{default_replan, method_at, number_at, parts_of, plan_with, policy_at, replan_at};

use crate::entries::{entries_at, given_at, settled, values_at};
use crate::fragments::WrittenFragment;
use crate::items::{present, read_items};
use crate::plan::{Fragment, GroupSetting, JoinSetting, Plan, Policy, Replan, WrittenRule};
use med_prelude::Listed;
use rule_reader::Method;
use std::alloc::{AllocError, Global};
use toml::Table;

const DEFAULT_BUCKETS: u64 = 64;

const DEFAULT_MEMORY: u64 = 268_435_456;

const DEFAULT_SPILL_LIMIT: u64 = 1 << 40;

const DEFAULT_IDLE_LIMIT: u64 = 100_000;

/// What the tables and entries of a document say, each where it is of its form.
#[derive(Debug, Drop)]
pub struct Parts {
    pub fragments: Listed<Option<WrittenFragment>>,
    pub joins: Listed<Option<JoinSetting>>,
    pub groups: Listed<Option<GroupSetting>>,
    pub rules: Listed<Option<WrittenRule>>,
}

#[tactic(auto, unfolding(crate::specs::Parts::parts_of))]
pub fn read_parts(alloc: Global, document: &Table) -> Result<Parts, AllocError>
    ensures { IfOk result (λ parts. parts ≡ parts_of (table_view document.now)) }
{
    let joins = entries_at(alloc, document, "join")?;
    let groups = entries_at(alloc, document, "group")?;
    Ok(Parts {
        fragments: read_items(alloc, values_at(document, "fragment"))?,
        joins: read_items(alloc, joins.as_slice())?,
        groups: read_items(alloc, groups.as_slice())?,
        rules: read_items(alloc, values_at(document, "rule"))?,
    })
}

fn number_at(document: &Table, key: &str, otherwise: u64) -> u64
    ensures { result ≡ number_at key.now otherwise (table_view document.now) }
{
    settled(otherwise, given_at::<u64>(document, key))
}

fn method_at(document: &Table) -> Method
    ensures { result ≡ method_at (table_view document.now) }
{
    settled(Method::Left, given_at::<Method>(document, "method"))
}

fn policy_at(document: &Table) -> Policy
    ensures { result ≡ policy_at (table_view document.now) }
{
    settled(Policy::First, given_at::<Policy>(document, "policy"))
}

fn replan_at(document: &Table, otherwise: Replan) -> Replan
    ensures { result ≡ replan_at otherwise (table_view document.now) }
{
    settled(otherwise, given_at::<Replan>(document, "replan"))
}

fn default_replan(fragments: &[Fragment]) -> Replan
    ensures { result ≡ default_replan fragments.now }
{
    if fragments.is_empty() {
        Replan::Always
    } else {
        Replan::Never
    }
}

/// The plan that a document says, given its parts and its fragments.
#[tactic(auto, unfolding(crate::specs::Parts::plan_with))]
pub fn plan_with(
    alloc: Global,
    document: &Table,
    joins: Listed<Option<JoinSetting>>,
    groups: Listed<Option<GroupSetting>>,
    rules: Listed<Option<WrittenRule>>,
    fragments: Listed<Fragment>,
) -> Result<Plan, AllocError>
    requires joins { joins ≡ (parts_of (table_view document.now)).joins }
    requires groups { groups ≡ (parts_of (table_view document.now)).groups }
    requires rules { rules ≡ (parts_of (table_view document.now)).rules }
    ensures { IfOk result (λ plan. plan ≡ plan_with (table_view document.now) fragments) }
{
    let replan = default_replan(fragments.as_slice());
    Ok(Plan {
        buckets: number_at(document, "buckets", DEFAULT_BUCKETS),
        memory: number_at(document, "memory", DEFAULT_MEMORY),
        method: method_at(document),
        spill_limit: number_at(document, "spill_limit", DEFAULT_SPILL_LIMIT),
        idle_limit: number_at(document, "idle_limit", DEFAULT_IDLE_LIMIT),
        policy: policy_at(document),
        replan: replan_at(document, replan),
        fragments,
        joins: present(alloc, joins)?,
        groups: present(alloc, groups)?,
        rules: present(alloc, rules)?,
    })
}
