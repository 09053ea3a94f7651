//! Texts that break one check, and texts that break several.

use crate::tests::{assert_refused, refused};
use med_base::Part;

/// Entries that are unknown, missing, or of another kind or form.
#[test]
fn refuses_what_has_no_form(rt: HostRuntime) {
    let cases = [
        ("memory = 1.5", Part::Plan, 0),
        ("memroy = 1", Part::Plan, 0),
        ("buckets = \"64\"", Part::Plan, 0),
        ("spill_limit = true", Part::Plan, 0),
        ("idle_limit = []", Part::Plan, 0),
        ("method = \"right\"", Part::Plan, 0),
        ("policy = \"race:\"", Part::Plan, 0),
        ("policy = \"race:-1\"", Part::Plan, 0),
        ("policy = \"First\"", Part::Plan, 0),
        ("replan = \"off\"", Part::Plan, 0),
        ("replan = \"off:two\"", Part::Plan, 0),
        ("fragment = 5", Part::Plan, 0),
        ("rule = {}", Part::Plan, 0),
        ("join = []", Part::Plan, 0),
        ("group = 1", Part::Plan, 0),
        ("fragment = [5]", Part::Fragment, 0),
        ("[[fragment]]\ntree = \"a1\"", Part::Fragment, 0),
        ("[[fragment]]\nname = \"f1\"", Part::Fragment, 0),
        (
            "[[fragment]]\nname = \"f0\"\ntree = \"a1\"",
            Part::Fragment,
            0,
        ),
        (
            "[[fragment]]\nname = \"f1000000\"\ntree = \"a1\"",
            Part::Fragment,
            0,
        ),
        (
            "[[fragment]]\nname = \"j1\"\ntree = \"a1\"",
            Part::Fragment,
            0,
        ),
        ("[[fragment]]\nname = \"f1\"\ntree = 1", Part::Fragment, 0),
        (
            "[[fragment]]\nname = \"f1\"\ntree = \"a1\"\nestimate = \"1\"",
            Part::Fragment,
            0,
        ),
        (
            "[[fragment]]\nname = \"f1\"\ntree = \"a1\"\nafter = \"f2\"",
            Part::Fragment,
            0,
        ),
        (
            "[[fragment]]\nname = \"f1\"\ntree = \"a1\"\nafter = [\"f2\", \"x\"]",
            Part::Fragment,
            0,
        ),
        (
            "[[fragment]]\nname = \"f1\"\ntree = \"a1\"\nmemory = 1",
            Part::Fragment,
            0,
        ),
        (
            "[[fragment]]\nname = \"f1\"\ntree = \"a1\"\n[[fragment]]\nname = \"f1\"\ntree = \"a2\"",
            Part::Fragment,
            1,
        ),
        ("[join.x]", Part::Join, 0),
        ("[join.j01]", Part::Join, 0),
        ("[join.a1]", Part::Join, 0),
        ("[join]\nj1 = 5", Part::Join, 0),
        ("[join.j1]\n[join.j2]\nquota = \"1\"", Part::Join, 1),
        ("[join.j1]\nmethod = 1", Part::Join, 0),
        ("[join.j1]\nrows = 1", Part::Join, 0),
        ("[group.a1]", Part::Group, 0),
        ("[group.\"a1.0\"]", Part::Group, 0),
        ("[group.\"a1.1.1\"]", Part::Group, 0),
        ("[group.\"a1.2\"]\npolicy = \"some\"", Part::Group, 0),
        ("[group.\"a1.2\"]\nname = \"some\"", Part::Group, 0),
        ("rule = [[]]", Part::Rule, 0),
        ("[[rule]]\nname = \"slow\"", Part::Rule, 0),
        ("[[rule]]\ntext = \"\"", Part::Rule, 0),
        ("[[rule]]\nname = \"true\"\ntext = \"\"", Part::Rule, 0),
        ("[[rule]]\nname = \"a b\"\ntext = \"\"", Part::Rule, 0),
        (
            "[[rule]]\nname = \"a\"\ntext = \"\"\n[[rule]]\nname = \"b\"\ntext = \"\"\n[[rule]]\nname = \"a\"\ntext = \"\"",
            Part::Rule,
            2,
        ),
    ];
    for (text, part, item) in cases {
        assert_refused(&rt, rt.alloc(), text, refused(2, part, item));
    }
}

/// Numbers out of their ranges.
#[test]
fn refuses_what_is_out_of_range(rt: HostRuntime) {
    let cases = [
        ("buckets = 32", Part::Plan, 0),
        ("memory = -1", Part::Plan, 0),
        ("memory = 1152921504606846977", Part::Plan, 0),
        ("spill_limit = 1152921504606846977", Part::Plan, 0),
        ("idle_limit = 0", Part::Plan, 0),
        ("idle_limit = 1000000001", Part::Plan, 0),
        ("policy = \"race:1152921504606846977\"", Part::Plan, 0),
        (
            "policy = \"race:99999999999999999999999999\"",
            Part::Plan,
            0,
        ),
        ("replan = \"off:0\"", Part::Plan, 0),
        ("replan = \"off:1152921504606846977\"", Part::Plan, 0),
        (
            "[[fragment]]\nname = \"f1\"\ntree = \"a1\"\nestimate = -1",
            Part::Fragment,
            0,
        ),
        (
            "[[fragment]]\nname = \"f1\"\ntree = \"a1\"\nestimate = 1152921504606846977",
            Part::Fragment,
            0,
        ),
        (
            "[join.j1]\n[join.j2]\nquota = 1152921504606846977",
            Part::Join,
            1,
        ),
        (
            "[group.\"a1.1\"]\npolicy = \"race:1152921504606846977\"",
            Part::Group,
            0,
        ),
    ];
    for (text, part, item) in cases {
        assert_refused(&rt, rt.alloc(), text, refused(11, part, item));
    }
}

/// Of several faults the least check counts, then the least part, then the least item, in whatever order they stand.
#[test]
fn tells_the_first_fault(rt: HostRuntime) {
    let cases = [
        ("memory = ", 1, Part::Plan, 0),
        ("memory = 9223372036854775808", 1, Part::Plan, 0),
        ("buckets = 32\nmethod = 5", 2, Part::Plan, 0),
        ("method = 5\nbuckets = 32", 2, Part::Plan, 0),
        (
            "buckets = 32\n[[fragment]]\nname = \"f1\"\ntree = \"\"",
            3,
            Part::Fragment,
            0,
        ),
        (
            "[[fragment]]\nname = \"f1\"\ntree = \"\"\n[join.x]",
            2,
            Part::Join,
            0,
        ),
        (
            "[join.x]\n[[fragment]]\nname = \"x\"\ntree = \"a1\"",
            2,
            Part::Fragment,
            0,
        ),
        (
            "[[rule]]\nname = \"\"\ntext = \"\"\n[group.x]",
            2,
            Part::Group,
            0,
        ),
        (
            "[group.\"a1.1\"]\npolicy = \"race:1152921504606846977\"\n[join.j1]\nquota = -1",
            11,
            Part::Join,
            0,
        ),
        (
            "[[fragment]]\nname = \"f1\"\ntree = \"a1,\"\n[[fragment]]\nname = \"f1\"\ntree = \"a1\"",
            2,
            Part::Fragment,
            1,
        ),
        (
            "[[fragment]]\nname = \"f1\"\ntree = \"a1\"\n[[fragment]]\nname = \"f1\"\ntree = \"a1\"\n[[fragment]]\nname = 1",
            2,
            Part::Fragment,
            1,
        ),
    ];
    for (text, why, part, item) in cases {
        assert_refused(&rt, rt.alloc(), text, refused(why, part, item));
    }
}
