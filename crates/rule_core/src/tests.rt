//! Rules that conflict and rules that don't, each pair in both orders.

use crate::conflicts;
use rule_reader::{Rule, RuleFault, read_rule};
use std::alloc::Global;
use std::process::Abort;

fn rule(rt: &impl Abort, alloc: Global, text: &str) -> Rule {
    match read_rule(alloc, text.as_bytes()) {
        Ok(rule) => rule,
        Err(RuleFault::Refused { why, at }) => panic!(rt; "refused {why} at {at}: {text}"),
        Err(RuleFault::NoMemory) => panic!(rt; "out of memory"),
    }
}

#[test]
fn rules_conflict_by_events_and_actions(rt: HostRuntime) {
    let cases = [
        (
            "when error(a1.1.1) if true then activate(a1.1.2)",
            "when error(a1.1.1) if active(a1.1.2) then deactivate(a1.1.2)",
            true,
        ),
        (
            "when error(a1.1.1) if true then activate(a1.1.2)",
            "when error(a1.1.2) if true then deactivate(a1.1.2)",
            false,
        ),
        (
            "when error(a1.1.1) if true then activate(a1.1.2)",
            "when error(a1.1.1) if true then deactivate(a1.1.3)",
            false,
        ),
        (
            "when error(a1.1.1) if true then activate(a1.1.2)",
            "when error(a1.1.1) if true then activate(a1.1.2)",
            false,
        ),
        (
            "when error(a1.1.1) if true then activate(a1.1.2)",
            "when closed(a1.1.1) if true then deactivate(a1.1.2)",
            false,
        ),
        (
            "when timeout(a1.1.1, 5) if true then stop, activate(a1.2.1)",
            "when timeout(a1.1.1, 05) if true then replan, deactivate(a1.2.1)",
            true,
        ),
        (
            "when timeout(a1.1.1, 5) if true then activate(a1.2.1)",
            "when timeout(a1.1.1, 6) if true then deactivate(a1.2.1)",
            false,
        ),
        (
            "when opened(f1) if true then method(j1, left)",
            "when opened(f1) if true then method(j1, symmetric)",
            true,
        ),
        (
            "when opened(f1) if true then method(j1, left)",
            "when opened(f1) if true then method(j1, left)",
            false,
        ),
        (
            "when opened(f1) if true then method(j1, left)",
            "when opened(f1) if true then method(j2, symmetric)",
            false,
        ),
        (
            "when closed(j3) if true then quota(j1, 5)",
            "when closed(j3) if true then quota(j1, 6)",
            true,
        ),
        (
            "when closed(j3) if true then quota(j1, 5)",
            "when closed(j3) if true then quota(j1, 5)",
            false,
        ),
        (
            "when closed(j3) if true then quota(j1, 5)",
            "when closed(j3) if true then quota(j2, 6)",
            false,
        ),
        (
            "when closed(j3) if true then stop",
            "when closed(j3) if true then replan",
            false,
        ),
    ];
    for (text, other, expected) in cases {
        let x = rule(&rt, rt.alloc(), text);
        let y = rule(&rt, rt.alloc(), other);
        assert_eq!(rt; conflicts(&x, &y), expected, "{text}, {other}");
        assert_eq!(rt; conflicts(&y, &x), expected, "{other}, {text}");
    }
}

#[test]
fn a_rule_conflicts_with_itself_by_its_own_actions(rt: HostRuntime) {
    let cases = [
        (
            "when opened(f1) if true then activate(a1.1.1), deactivate(a1.1.1)",
            true,
        ),
        (
            "when opened(f1) if true then activate(a1.1.1), deactivate(a1.1.2)",
            false,
        ),
        (
            "when opened(f1) if true then method(j1, left), stop, method(j1, symmetric)",
            true,
        ),
        (
            "when opened(f1) if true then quota(j1, 1), quota(j1, 2)",
            true,
        ),
        (
            "when opened(f1) if true then quota(j1, 1), quota(j1, 1)",
            false,
        ),
    ];
    for (text, expected) in cases {
        let own = rule(&rt, rt.alloc(), text);
        assert_eq!(rt; conflicts(&own, &own), expected, "{text}");
    }
}
