//! Plans by hand, with what they are read as or where they are refused.

mod edges;
mod refusals;

use crate::{
    Fragment, GroupSetting, JoinSetting, Leaf, Method, Node, Plan, PlanFault, Policy, Replan,
    read_plan,
};
use med_base::{GroupName, Part};
use std::alloc::Global;
use std::process::Abort;
use std::test::Fail;

fn refused(why: u8, part: Part, item: u32) -> PlanFault {
    PlanFault::Refused { why, part, item }
}

fn assert_refused(rt: &impl Abort, alloc: Global, text: &str, fault: PlanFault) {
    match read_plan(alloc, text.as_bytes()) {
        Err(found) => assert_eq!(rt; found, fault, "{text}"),
        Ok(_) => panic!(rt; "accepted in place of {fault}: {text}"),
    }
}

fn assert_accepted(rt: &impl Abort, alloc: Global, text: &str) {
    match read_plan(alloc, text.as_bytes()) {
        Ok(_) => {}
        Err(found) => panic!(rt; "{found}: {text}"),
    }
}

fn read(alloc: Global, text: &str) -> Result<Plan, Fail> {
    read_plan(alloc, text.as_bytes()).map_err(|_| Fail::from("refused"))
}

const WHOLE: &str = r#"
buckets = 16
memory = 65536
method = "symmetric"
spill_limit = 1000000
idle_limit = 1000
policy = "all"
replan = "off:2"
[[fragment]]
name = "f3"
tree = "j1(a1, a2)"
estimate = 1000
[[fragment]]
name = "f2"
tree = "j12( j2(f3,a4) , a3)"
after = ["f3"]
[join.j12]
quota = 30000
[join.j1]
method = "left"
[group."a1.2"]
policy = "race:0100"
[group."a1.10"]
[[rule]]
name = "slow"
text = "when timeout(a1.1.1, 500) if true then activate(a1.1.2)"
"#;

/// Every entry, with its default where it may be missing: keys are in the order of their bytes.
#[test]
fn reads_every_entry(rt: HostRuntime) -> Result<(), Fail> {
    let plan = read(rt.alloc(), WHOLE)?;
    assert_eq!(rt; (plan.buckets, plan.memory), (16, 65_536));
    assert_eq!(rt; (plan.spill_limit, plan.idle_limit), (1_000_000, 1_000));
    assert_eq!(rt; plan.method, Method::Symmetric);
    assert_eq!(rt; (plan.policy, plan.replan), (Policy::All, Replan::Off(2)));
    let setting = |join, method, quota| JoinSetting {
        join,
        method,
        quota,
    };
    let joins = [
        setting(1, Some(Method::Left), None),
        setting(12, None, Some(30_000)),
    ];
    assert_eq!(rt; plan.joins.as_slice(), joins.as_slice());
    let groups = [(10, None), (2, Some(Policy::Race(100)))];
    assert_eq!(rt; plan.groups.len(), 2);
    for (index, (group, policy)) in groups.iter().enumerate() {
        let name = GroupName {
            atom: 1,
            group: *group,
        };
        let expected = GroupSetting {
            group: name,
            policy: *policy,
        };
        assert_eq!(rt; plan.groups.as_slice().get(index).copied(), Some(expected));
    }
    assert_eq!(rt; plan.rules.len(), 1);
    let rule = &plan.rules.as_slice()[0];
    assert_eq!(rt; rule.name.as_str(), "slow");
    assert_eq!(rt;
        rule.text.as_str(),
        "when timeout(a1.1.1, 500) if true then activate(a1.1.2)"
    );
    Ok(())
}

fn assert_fragment(
    rt: &impl Abort,
    fragment: &Fragment,
    number: u32,
    nodes: &[Node],
    estimate: Option<u64>,
    after: &[u32],
) {
    assert_eq!(rt; fragment.number, number);
    assert_eq!(rt; fragment.tree.nodes(), nodes);
    assert_eq!(rt; fragment.estimate, estimate);
    assert_eq!(rt; fragment.after.as_slice(), after);
}

/// A join stands behind the nodes of its trees.
#[test]
fn reads_trees(rt: HostRuntime) -> Result<(), Fail> {
    let plan = read(rt.alloc(), WHOLE)?;
    assert_eq!(rt; plan.fragments.len(), 2);
    let atom = |number| Node::Leaf(Leaf::Atom(number));
    let fragments = plan.fragments.as_slice();
    let first = [atom(1), atom(2), Node::Join(1)];
    assert_fragment(
        &rt,
        &fragments[0],
        3,
        first.as_slice(),
        Some(1_000),
        [].as_slice(),
    );
    let second = [
        Node::Leaf(Leaf::Fragment(3)),
        atom(4),
        Node::Join(2),
        atom(3),
        Node::Join(12),
    ];
    assert_fragment(
        &rt,
        &fragments[1],
        2,
        second.as_slice(),
        None,
        [3].as_slice(),
    );
    Ok(())
}

/// What stands where nothing is given. A plan without fragments, or with an empty list of them, is made anew always.
#[test]
fn fills_in_what_is_missing(rt: HostRuntime) -> Result<(), Fail> {
    let alloc = rt.alloc();
    for text in ["", "fragment = []"] {
        let plan = read(alloc, text)?;
        assert_eq!(rt; (plan.buckets, plan.memory), (64, 268_435_456));
        assert_eq!(rt; (plan.spill_limit, plan.idle_limit), (1 << 40, 100_000));
        assert_eq!(rt; (plan.policy, plan.replan), (Policy::First, Replan::Always));
        assert_eq!(rt; plan.method, Method::Left);
        assert!(rt; plan.fragments.is_empty() && plan.joins.is_empty());
        assert!(rt; plan.groups.is_empty() && plan.rules.is_empty());
    }
    let plan = read(alloc, "[[fragment]]\nname = \"f1\"\ntree = \"a1\"")?;
    assert_eq!(rt; plan.replan, Replan::Never);
    Ok(())
}
