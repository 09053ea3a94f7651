//! Trees, each limit at its edge, and texts that are long or deep.

use crate::tests::{assert_accepted, assert_refused, refused};
use crate::{LONGEST_PLAN, read_plan};
use med_base::Part;
use std::alloc::{AllocError, Global};
use std::test::Fail;

/// A plan of one fragment with this tree.
fn plan_of(alloc: Global, tree: &str) -> Result<String, AllocError> {
    format!(in alloc; "[[fragment]]\nname = \"f1\"\ntree = \"{tree}\"")
}

/// A fragment whose text spells no tree, and joins that have one name.
#[test]
fn refuses_trees(rt: HostRuntime) -> Result<(), Fail> {
    let alloc = rt.alloc();
    let cases = [
        ("j1(a1,a2", "a3", 0),
        ("a1", "", 1),
        ("j1(a1,j1(a2,a3))", "a4", 0),
        ("j1(a1,a2)", "j1(f1,a3)", 1),
    ];
    for (one, two, item) in cases {
        let mut text = plan_of(alloc, one)?;
        let next = format!(in alloc; "\n[[fragment]]\nname = \"f2\"\ntree = \"{two}\"")?;
        text.push_str(next.as_str())?;
        assert_refused(&rt, alloc, text.as_str(), refused(3, Part::Fragment, item));
    }
    Ok(())
}

#[test]
fn takes_numbers_at_their_edges(rt: HostRuntime) {
    let cases = [
        "buckets = 16",
        "buckets = 256",
        "memory = 0",
        "memory = 1152921504606846976",
        "spill_limit = 0",
        "idle_limit = 1",
        "idle_limit = 1000000000",
        "policy = \"only\"",
        "policy = \"race:0\"",
        "policy = \"race:1152921504606846976\"",
        "replan = \"never\"",
        "replan = \"off:1\"",
        "replan = \"off:0001152921504606846976\"",
        "[[fragment]]\nname = \"f1\"\ntree = \"a1\"\nestimate = 0",
        "[[fragment]]\nname = \"f1\"\ntree = \"a1\"\nestimate = 1152921504606846976\nafter = []",
        "[join.j999999]\nquota = 0",
        "[group.\"a999999.1\"]\npolicy = \"first\"",
        "[[rule]]\nname = \"stop\"\ntext = \"\"",
    ];
    for text in cases {
        assert_accepted(&rt, rt.alloc(), text);
    }
}

/// So many fragments of one atom, or so many rules.
fn many(
    alloc: Global,
    key: &str,
    name: &str,
    rest: &str,
    count: u32,
) -> Result<String, AllocError> {
    let mut text = String::new(alloc);
    for number in 0..count {
        let one = format!(in alloc; "[[{key}]]\nname = \"{name}{}\"\n{rest}\n", number + 1)?;
        text.push_str(one.as_str())?;
    }
    Ok(text)
}

#[test]
fn bounds_what_is_counted(rt: HostRuntime) -> Result<(), Fail> {
    let alloc = rt.alloc();
    let tree = "tree = \"a1\"";
    let rule = "text = \"\"";
    assert_accepted(&rt, alloc, many(alloc, "fragment", "f", tree, 8)?.as_str());
    let text = many(alloc, "fragment", "f", tree, 9)?;
    assert_refused(&rt, alloc, text.as_str(), refused(11, Part::Fragment, 8));
    assert_accepted(&rt, alloc, many(alloc, "rule", "r", rule, 64)?.as_str());
    let text = many(alloc, "rule", "r", rule, 65)?;
    assert_refused(&rt, alloc, text.as_str(), refused(11, Part::Rule, 64));
    let mut text = Vec::new(alloc);
    for _ in 0..LONGEST_PLAN {
        text.push(b'\n')?;
    }
    assert!(rt; read_plan(alloc, text.as_slice()).is_ok());
    text.push(b'\xff')?;
    let found = read_plan(alloc, text.as_slice()).err();
    assert_eq!(rt; found, Some(refused(11, Part::Plan, 0)));
    let found = read_plan(alloc, b"\xff".as_slice()).err();
    assert_eq!(rt; found, Some(refused(1, Part::Plan, 0)));
    Ok(())
}

/// So many joins, each the left tree of the one before it.
fn deep_tree(alloc: Global, joins: u32, closings: u32) -> Result<String, AllocError> {
    let mut text = String::new(alloc);
    for number in 0..joins {
        let open = format!(in alloc; "j{}(", number + 1)?;
        text.push_str(open.as_str())?;
    }
    text.push_str("a1")?;
    for _ in 0..closings {
        text.push_str(",a1)")?;
    }
    Ok(text)
}

/// A tree of 150,000 parentheses one inside the other is answered at once.
#[test]
fn answers_deep_trees(rt: HostRuntime) -> Result<(), Fail> {
    let alloc = rt.alloc();
    let tree = deep_tree(alloc, 75_000, 75_000)?;
    assert_accepted(&rt, alloc, plan_of(alloc, tree.as_str())?.as_str());
    Ok(())
}
