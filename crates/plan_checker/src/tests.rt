//! Plans for a query by hand: where they are refused, and where comparisons are tested.

ghost use Rattle.std.specs.Prelude.{IfOk};
ghost use Rattle.cat_reader.specs.Accepted.{KeepsLimits};
ghost use Rattle.query_reader.specs.Fitting.{FitsCatalogue};

use crate::{Checked, check_plan, default_plan};
use cat_reader::{Catalogue, read_catalogue};
use med_base::{GroupName, MemberName, Name, Part};
use plan_reader::{Leaf, Node, Plan, PlanFault, read_plan};
use query_core::Query;
use query_reader::read_query;
use std::alloc::Global;
use std::process::Abort;
use std::test::Fail;

const CATALOGUE: &[u8] = br#"
[[relation]]
name = "r"
columns = ["x:int", "y:int"]
groups = [["r1"], ["r2", "r3"]]
"#;

const FOUR: &[u8] =
    b"q(x, v) :- r(x, y), r(y, z), r(z, w), r(w, v), x < z, y > 5, w <= v, x != v, y = w.";

fn catalogue(alloc: Global) -> Result<Catalogue, Fail>
    ensures { IfOk result KeepsLimits }
{
    match read_catalogue(alloc, CATALOGUE) {
        Ok(catalogue) => Ok(catalogue),
        Err(_) => Err(Fail::from("no catalogue")),
    }
}

fn query(alloc: Global, text: &[u8], catalogue: &Catalogue) -> Result<Query, Fail>
    requires { KeepsLimits catalogue.now }
    ensures { IfOk result (FitsCatalogue catalogue.now) }
{
    match read_query(alloc, text, catalogue) {
        Ok(query) => Ok(query),
        Err(_) => Err(Fail::from("no query")),
    }
}

fn plan(alloc: Global, text: &str) -> Result<Plan, Fail> {
    read_plan(alloc, text.as_bytes()).map_err(|_| Fail::from("no plan"))
}

/// What is found of a plan's text, by its reader or by its checker, for a query of so many atoms `r(x0, x1)`, `r(x1, x2)`
/// and so on.
fn found(alloc: Global, atoms: u32, text: &str) -> Result<Result<Checked, PlanFault>, Fail> {
    let catalogue = catalogue(alloc)?;
    let mut body = String::from_str(alloc, "q(x0) :- r(x0, x1)")?;
    for atom in 1..atoms {
        let next = format!(in alloc; ", r(x{atom}, x{})", atom + 1)?;
        body.push_str(next.as_str())?;
    }
    body.push('.')?;
    let query = query(alloc, body.as_bytes(), &catalogue)?;
    Ok(match read_plan(alloc, text.as_bytes()) {
        Ok(plan) => check_plan(alloc, &query, &catalogue, plan),
        Err(fault) => Err(fault),
    })
}

fn assert_refused(
    rt: &impl Abort,
    found: Result<Checked, PlanFault>,
    fault: PlanFault,
    text: &str,
) {
    match found {
        Err(told) => assert_eq!(rt; told, fault, "{text}"),
        Ok(_) => panic!(rt; "accepted: {text}"),
    }
}

/// Each check past its edge, two broken checks in both orders, and a broken check of the reader's beside one of these.
#[test]
fn refuses_what_covers_no_query(rt: HostRuntime) -> Result<(), Fail> {
    let cases = [
        (
            2,
            r#"fragment = [{name = "f1", tree = "j1(a1, a3)"}]"#,
            4,
            Part::Fragment,
            0,
        ),
        (
            2,
            r#"fragment = [{name = "f1", tree = "j1(a1, f7)"}]"#,
            4,
            Part::Fragment,
            0,
        ),
        (
            2,
            r#"fragment = [{name = "f1", tree = "a1"}, {name = "f2", tree = "j1(f1, a2)", after = ["f3"]}]"#,
            4,
            Part::Fragment,
            1,
        ),
        (2, r#"join = {j1 = {}, j2 = {}}"#, 4, Part::Join, 1),
        (2, r#"group = {"a3.1" = {}}"#, 4, Part::Group, 0),
        (
            2,
            r#"group = {"a1.2" = {}, "a1.3" = {}}"#,
            4,
            Part::Group,
            1,
        ),
        (
            2,
            r#"fragment = [{name = "f1", tree = "a1"}]"#,
            5,
            Part::Atom,
            1,
        ),
        (
            2,
            r#"fragment = [{name = "f1", tree = "j1(a1, j2(a2, a1))"}]"#,
            6,
            Part::Atom,
            0,
        ),
        (
            2,
            r#"fragment = [{name = "f1", tree = "a1"}, {name = "f2", tree = "a2"}]"#,
            7,
            Part::Fragment,
            0,
        ),
        (
            2,
            r#"fragment = [{name = "f1", tree = "a1"}, {name = "f2", tree = "j1(f1, j2(f1, a2))"}]"#,
            7,
            Part::Fragment,
            0,
        ),
        (
            2,
            r#"fragment = [{name = "f1", tree = "j1(f2, a1)"}, {name = "f2", tree = "a2"}]"#,
            7,
            Part::Fragment,
            0,
        ),
        (
            1,
            r#"fragment = [{name = "f1", tree = "a1", after = ["f2"]}, {name = "f2", tree = "f1"}]"#,
            8,
            Part::Fragment,
            0,
        ),
        (
            1,
            r#"fragment = [{name = "f1", tree = "a1", after = ["f1"]}]"#,
            8,
            Part::Fragment,
            0,
        ),
        (
            2,
            "group = {\"a1.3\" = {}}\njoin = {j2 = {}}",
            4,
            Part::Join,
            0,
        ),
        (
            2,
            "join = {j2 = {}}\ngroup = {\"a1.3\" = {}}",
            4,
            Part::Join,
            0,
        ),
        (
            3,
            r#"fragment = [{name = "f1", tree = "j1(a3, a3)"}]"#,
            5,
            Part::Atom,
            0,
        ),
        (
            3,
            r#"fragment = [{name = "f1", tree = "j1(a1, j2(a1, a4))"}]"#,
            4,
            Part::Fragment,
            0,
        ),
        (
            2,
            r#"fragment = [{name = "f1", tree = "j1(f2, a2)"}, {name = "f2", tree = "j2(a1, a1)"}]"#,
            6,
            Part::Atom,
            0,
        ),
        (
            2,
            r#"fragment = [{name = "f1", tree = "a1", after = ["f2"]}, {name = "f2", tree = "a2"}]"#,
            7,
            Part::Fragment,
            0,
        ),
        (2, r#"join = {j2 = {quota = -1}}"#, 11, Part::Join, 0),
        (
            2,
            r#"fragment = [{name = "f1", tree = "j1(a1, a3)"}, {name = "f1", tree = "a2"}]"#,
            2,
            Part::Fragment,
            1,
        ),
        (
            2,
            r#"fragment = [{name = "f1", tree = "j1(a1, j1(a1, a1))"}]"#,
            3,
            Part::Fragment,
            0,
        ),
    ];
    for (atoms, text, why, part, item) in cases {
        let told = PlanFault::Refused { why, part, item };
        assert_refused(&rt, found(rt.alloc(), atoms, text)?, told, text);
    }
    Ok(())
}

/// Each check at its edge.
#[test]
fn accepts_what_is_at_the_edge(rt: HostRuntime) -> Result<(), Fail> {
    let cases = [
        (2, r#"fragment = [{name = "f1", tree = "j1(a2, a1)"}]"#),
        (
            2,
            r#"fragment = [{name = "f7", tree = "a2"}, {name = "f1", tree = "j9(f7, a1)", after = ["f7"]}]"#,
        ),
        (
            1,
            r#"fragment = [{name = "f1", tree = "a1"}, {name = "f2", tree = "f1"}]"#,
        ),
        (3, r#"join = {j1 = {}, j2 = {}}"#),
        (2, r#"group = {"a2.1" = {}, "a2.2" = {}}"#),
        (8, ""),
    ];
    for (atoms, text) in cases {
        assert!(rt; found(rt.alloc(), atoms, text)?.is_ok(), "{text}");
    }
    Ok(())
}

/// A plan of eight fragments, each but the first over the one before it, and settings of what is there.
#[test]
fn accepts_what_covers_a_query(rt: HostRuntime) -> Result<(), Fail> {
    let alloc = rt.alloc();
    let mut text = String::from_str(alloc, "[[fragment]]\nname = \"f1\"\ntree = \"a1\"\n")?;
    for number in 2..9u32 {
        let before = number - 1;
        let next = format!(in alloc;
            "[[fragment]]\nname = \"f{number}\"\ntree = \"j{number}(f{before}, a{number})\"\nafter = [\"f{before}\"]\n"
        )?;
        text.push_str(next.as_str())?;
    }
    text.push_str("[join.j8]\n[group.\"a8.2\"]\n")?;
    let checked = found(alloc, 8, text.as_str())?.map_err(|_| Fail::from("refused"))?;
    assert_eq!(rt; checked.plan().fragments.len(), 8);
    Ok(())
}

/// A plan that names no fragment gets one; its joins count from the innermost one on and can be named.
#[test]
fn fills_a_plan_without_fragments(rt: HostRuntime) -> Result<(), Fail> {
    let checked = found(rt.alloc(), 3, "[join.j2]")?.map_err(|_| Fail::from("refused"))?;
    let plan = checked.plan();
    assert_eq!(rt; plan.fragments.len(), 1);
    let fragment = &plan.fragments.as_slice()[0];
    assert_eq!(rt; (fragment.number, fragment.estimate), (1, None));
    let atom = |number| Node::Leaf(Leaf::Atom(number));
    let nodes = [atom(1), atom(2), Node::Join(1), atom(3), Node::Join(2)];
    assert_eq!(rt; fragment.tree.nodes(), nodes.as_slice());
    for atoms in 1..9u32 {
        assert!(rt; found(rt.alloc(), atoms, "")?.is_ok());
    }
    Ok(())
}

/// Comparisons that one atom binds, that two could take, and that a join alone binds, over two cuts of a query of four
/// atoms.
#[test]
fn places_comparisons(rt: HostRuntime) -> Result<(), Fail> {
    let alloc = rt.alloc();
    let catalogue = catalogue(alloc)?;
    let query = query(alloc, FOUR, &catalogue)?;
    let (atom, join) = (|number| Name::Atom(number), |number| Name::Join(number));
    let cases = [
        ("", [join(1), atom(1), atom(4), join(3), join(2)]),
        (
            "[[fragment]]\nname = \"f1\"\ntree = \"j9(a4, a3)\"\n[[fragment]]\nname = \"f2\"\ntree = \"j2(j3(a2, f1), a1)\"",
            [join(2), atom(2), atom(4), join(2), join(3)],
        ),
    ];
    for (text, expected) in cases {
        let plan = plan(alloc, text)?;
        let checked = check_plan(alloc, &query, &catalogue, plan).map_err(|_| Fail::from(
            "refused",
        ))?;
        assert_eq!(rt; checked.places(), expected.as_slice(), "{text}");
    }
    Ok(())
}

/// Two atoms over a relation with a group of one mirror and one of two, under the plan that names nothing.
#[test]
fn lists_what_is_read(rt: HostRuntime) -> Result<(), Fail> {
    let alloc = rt.alloc();
    let catalogue = catalogue(alloc)?;
    let query = query(alloc, b"q(x) :- r(x, y), r(y, z).", &catalogue)?;
    let plan = default_plan(alloc);
    let checked = match check_plan(alloc, &query, &catalogue, plan) {
        Ok(checked) => checked,
        Err(_) => return Err(Fail::from("refused")),
    };
    let group = |atom, group| GroupName { atom, group };
    let groups = [group(1, 1), group(1, 2), group(2, 1), group(2, 2)];
    assert_eq!(rt; checked.groups(), groups.as_slice());
    let member = |atom, group, mirror| MemberName {
        atom,
        group,
        mirror,
    };
    let members = [
        member(1, 1, 1),
        member(1, 2, 1),
        member(1, 2, 2),
        member(2, 1, 1),
        member(2, 2, 1),
        member(2, 2, 2),
    ];
    assert_eq!(rt; checked.members(), members.as_slice());
    Ok(())
}
