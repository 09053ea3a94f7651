//! The fragment that a plan gets that names none: all atoms joined, in their order.

ghost use Rattle.std.specs.Prelude.{◌≡◌, [], ◌∷◌, ◌≤◌, ◌-◌, IfOk};
ghost use Rattle.plan_checker.specs.Filling.{default_fragment, default_plan, filled, left_deep};

use join_trees::{Leaf, Stack, Tree};
use med_prelude::Listed;
use plan_reader::{Fragment, Method, Plan, Policy, Replan};
use std::alloc::{AllocError, Global};

/// The first atoms, each joined with the tree before it.
fn left_deep(alloc: Global, atoms: u32) -> Result<Stack, AllocError>
    requires some { 1 ≤ atoms }
    ensures { IfOk result (λ trees. trees ≡ left_deep (atoms - 1) ∷ []) }
{
    let mut trees = Stack::new(alloc);
    trees.push_leaf(Leaf::Atom(1))?;
    for join in 1..atoms {
        trees.push_leaf(Leaf::Atom(join + 1))?;
        trees.join(join)?;
    }
    Ok(trees)
}

fn default_tree(alloc: Global, atoms: u32) -> Result<Tree, AllocError>
    requires some { 1 ≤ atoms }
    ensures { IfOk result (λ tree. tree ≡ left_deep (atoms - 1)) }
{
    let trees = left_deep(alloc, atoms)?;
    match trees.into_tree() {
        Some(tree) => Ok(tree),
        None => unreachable!(),
    }
}

/// The fragment of all atoms, of which there are so many.
fn default_fragment(alloc: Global, atoms: u32) -> Result<Fragment, AllocError>
    requires some { 1 ≤ atoms }
    ensures { IfOk result (λ fragment. fragment ≡ default_fragment atoms) }
{
    Ok(Fragment {
        number: 1,
        tree: default_tree(alloc, atoms)?,
        estimate: None,
        after: Listed::new(alloc),
    })
}

/// The plan, with the fragment of all atoms where it names none.
pub fn filled(alloc: Global, atoms: u32, plan: Plan) -> Result<Plan, AllocError>
    requires some { 1 ≤ atoms }
    ensures { IfOk result (λ full. full ≡ filled atoms plan) }
{
    if !plan.fragments.is_empty() {
        return Ok(plan);
    }
    let mut fragments = Listed::new(alloc);
    fragments.push(default_fragment(alloc, atoms)?)?;
    Ok(Plan { fragments, ..plan })
}

/// The plan that names nothing, as the empty text says it.
#[tactic(auto, unfolding(plan_reader::specs::Parts::parts_of, plan_reader::specs::Parts::plan_with))]
pub fn default_plan(alloc: Global) -> Plan
    ensures { result ≡ default_plan }
{
    Plan {
        buckets: 64,
        memory: 268_435_456,
        method: Method::Left,
        spill_limit: 1 << 40,
        idle_limit: 100_000,
        policy: Policy::First,
        replan: Replan::Always,
        fragments: Listed::new(alloc),
        joins: Listed::new(alloc),
        groups: Listed::new(alloc),
        rules: Listed::new(alloc),
    }
}
