//! What no clause says: that rows come, from two groups whose bytes come in pieces, and how members end.

ghost use Rattle.std.specs.Prelude.{◌≡◌, ◌≤◌, length, IfOk};

use crate::{AtomCollector, Collected, Selection};
use med_base::{
    GroupName, MemOpener, MemSource, MemberFault, MemberName, MemberState, OpenFault, Opener,
    Script, Site, Turn,
};
use row_match::{Comparison, Filter, Pattern, Term, Vars};
use std::alloc::Global;
use std::test::Fail;
use tuple_core::{Column, Columns, Kind, Op, Row, Text, Value, Words};

/// More steps than any of these members takes.
const ROUNDS: usize = 1_000;

// r(x, x, 3, y), x < y.
fn selection(alloc: Global) -> Result<Selection, Fail>
    ensures { IfOk result (λ s. length s.terms ≡ 4) }
{
    let terms = vec![in alloc;
        Term::Variable(0),
        Term::Variable(0),
        Term::Constant(Value::Int(3)),
        Term::Variable(1),
    ]?;
    let less = Comparison {
        left: Term::Variable(0),
        op: Op::Lt,
        right: Term::Variable(1),
    };
    let filter = Filter::new(Vars::new(vec![in alloc; 0, 1]?), vec![in alloc; less]?);
    Ok(Selection::new(Pattern::new(alloc, terms)?, filter))
}

// r(x, y, z, w), with no comparisons.
fn plain_selection(alloc: Global) -> Result<Selection, Fail>
    ensures { IfOk result (λ s. length s.terms ≡ 4) }
{
    let terms = vec![in alloc;
        Term::Variable(0),
        Term::Variable(1),
        Term::Variable(2),
        Term::Variable(3),
    ]?;
    let filter = Filter::new(Vars::new(vec![in alloc; 0, 1, 2, 3]?), Vec::new(alloc));
    Ok(Selection::new(Pattern::new(alloc, terms)?, filter))
}

fn column(alloc: Global, name: &str) -> Result<Column, Fail> {
    Ok(Column {
        name: Text::from_str(alloc, name)?,
        kind: Kind::Int,
    })
}

fn columns(alloc: Global) -> Result<Columns, Fail>
    ensures { IfOk result (λ columns. length columns ≡ 4) }
{
    let columns = vec![in alloc;
        column(alloc, "a")?,
        column(alloc, "b")?,
        column(alloc, "c")?,
        column(alloc, "d")?,
    ]?;
    Ok(Columns::from_vec(columns))
}

fn group(alloc: Global, location: &str) -> Result<Words, Fail>
    ensures { IfOk result (λ mirrors. length mirrors ≡ 1) }
{
    Ok(Words::from_vec(vec![in alloc; Text::from_str(alloc, location)?]?))
}

// The collector of atom 1, whose two groups have a mirror each.
fn collector(alloc: Global, selection: Selection) -> Result<AtomCollector<MemSource>, Fail>
    requires { length selection.terms ≡ 4 }
{
    let groups = vec![in alloc; group(alloc, "first")?, group(alloc, "second")?]?;
    let collector = AtomCollector::new(alloc, 1, columns(alloc)?, selection, groups.as_slice())?;
    Ok(collector)
}

fn site(alloc: Global, location: &str, text: &[u8], script: Script) -> Result<Site, Fail> {
    Ok(Site {
        location: Text::from_str(alloc, location)?,
        text: Vec::from_slice(alloc, text)?,
        script,
    })
}

// So many bytes a pull, with nothing there before each.
fn slow(alloc: Global, size: usize) -> Result<Script, Fail> {
    let mut turns = Vec::new(alloc);
    for _ in 0..100 {
        turns.push(Turn::NotYet)?;
        turns.push(Turn::Give(size))?;
    }
    Ok(Script {
        turns,
        then: Turn::Give(size),
    })
}

// Opens a member that wasn't opened yet.
fn open(
    alloc: Global,
    collector: &mut AtomCollector<MemSource>,
    opener: &mut MemOpener,
    index: usize,
) -> Result<(), Fail> {
    if index >= collector.len() {
        return Err(Fail::from("no such member"));
    }
    if collector.member(index).state != MemberState::Idle {
        return Err(Fail::from("opened twice"));
    }
    let location = Text::from_str(alloc, collector.location(index))?;
    match opener.open_at(alloc, location.as_str()) {
        Ok(source) => {
            collector.give(alloc, index, source)?;
            Ok(())
        }
        Err(OpenFault::Failed) => {
            collector.opening_failed(index);
            Ok(())
        }
        Err(OpenFault::NoMemory) => Err(Fail::from("out of memory")),
    }
}

// Steps of both members in turn, between them what they hold, and the rows that they give.
fn run(alloc: Global, collector: &mut AtomCollector<MemSource>) -> Result<Vec<Row>, Fail> {
    let mut rows = Vec::new(alloc);
    for turn in 0..ROUNDS {
        let index = turn % 2;
        if index < collector.len() {
            let collected = if turn % 4 < 2 {
                collector.step(alloc, index)
            } else {
                collector.accept(alloc, index)
            };
            match collected {
                Collected::Row(row) => rows.push(row)?,
                Collected::Moved | Collected::Still => {}
                Collected::NoMemory => return Err(Fail::from("out of memory")),
            }
        }
    }
    Ok(rows)
}

// How a member stands: its state, its fault, and how many rows were accepted.
fn stand(
    collector: &AtomCollector<MemSource>,
    index: usize,
) -> Option<(MemberState, Option<MemberFault>, u64)> {
    if index >= collector.len() {
        return None;
    }
    let now = collector.member(index);
    Some((now.state, now.fault, now.accepted))
}

fn has(rows: &[Row], first: i64, second: i64) -> bool {
    rows.iter().any(|row| match row.values() {
        [Value::Int(x), Value::Int(y)] => *x == first && *y == second,
        _ => false,
    })
}

#[test]
fn selects_rows_of_two_groups_as_their_bytes_come(rt: HostRuntime) -> Result<(), Fail> {
    let alloc = rt.alloc();
    let first = b"a,b,c,d\n1,1,3,5\n1,2,3,5\n2,2,4,5\n7,7,3,5\n6,6,3,9";
    let second = b"a,b,c,d\n4,4,3,9\n";
    for size in [1, 2, 5, 7, 100] {
        let sites = vec![in alloc;
            site(alloc, "first", first, slow(alloc, size)?)?,
            site(alloc, "second", second, slow(alloc, size)?)?,
        ]?;
        let mut opener = MemOpener::new(alloc, sites, Vec::new(alloc));
        let mut collector = collector(alloc, selection(alloc)?)?;
        open(alloc, &mut collector, &mut opener, 0)?;
        open(alloc, &mut collector, &mut opener, 1)?;
        assert!(rt; !collector.settled(1) && !collector.finished());
        let rows = run(alloc, &mut collector)?;
        assert_eq!(rt; rows.len(), 3);
        let rows = rows.as_slice();
        assert!(rt; has(rows, 1, 5) && has(rows, 6, 9) && has(rows, 4, 9));
        assert_eq!(rt; stand(&collector, 0), Some((MemberState::Ended, None, 5)));
        assert_eq!(rt; stand(&collector, 1), Some((MemberState::Ended, None, 1)));
        assert!(rt; collector.settled(1) && collector.settled(2) && collector.finished());
        assert!(rt; collector.starved().is_none());
        let ends = collector.into_ends(alloc)?;
        assert_eq!(rt; ends.len(), 2);
    }
    Ok(())
}

// How the first member ends, and whether its group is starved, where its source has this text and this script.
fn ends(
    alloc: Global,
    text: &[u8],
    turn: Turn,
    failing: bool,
) -> Result<(Option<(MemberState, Option<MemberFault>, u64)>, bool), Fail> {
    let script = Script {
        turns: vec![in alloc; Turn::Give(17), turn]?,
        then: Turn::Give(100),
    };
    let sites = vec![in alloc; site(alloc, "first", text, script)?]?;
    let failing = if failing {
        vec![in alloc; 0usize]?
    } else {
        Vec::new(alloc)
    };
    let mut opener = MemOpener::new(alloc, sites, failing);
    let mut collector = collector(alloc, selection(alloc)?)?;
    open(alloc, &mut collector, &mut opener, 0)?;
    let _rows = run(alloc, &mut collector)?;
    let starved = collector.starved() == Some(GroupName { atom: 1, group: 1 });
    Ok((stand(&collector, 0), starved))
}

#[test]
fn members_end_with_their_causes(rt: HostRuntime) -> Result<(), Fail> {
    let alloc = rt.alloc();
    let good = b"a,b,c,d\n1,1,3,5\n2,2,3,5\n";
    let failed = |fault, accepted| (Some((MemberState::Failed, Some(fault), accepted)), true);
    assert_eq!(rt;
        ends(alloc, good, Turn::NotYet, true)?,
        failed(MemberFault::Opening, 0)
    );
    assert_eq!(rt;
        ends(alloc, good, Turn::Failed, false)?,
        failed(MemberFault::Read, 1)
    );
    let header = b"a,b,c\n1,1,3\n";
    assert_eq!(rt;
        ends(alloc, header, Turn::NotYet, false)?,
        failed(MemberFault::Header { found: 3 }, 0)
    );
    let field = b"a,b,c,d\n1,1,3,5\n2,2,3,x\n4,4,3,9\n";
    assert_eq!(rt;
        ends(alloc, field, Turn::NotYet, false)?,
        failed(MemberFault::BadField { k: 2, column: 3 }, 1)
    );
    let ended = (Some((MemberState::Ended, None, 2)), false);
    assert_eq!(rt; ends(alloc, good, Turn::NotYet, false)?, ended);
    Ok(())
}

// Whether these values of four variables were given.
fn gives(collected: Collected, wanted: [i64; 4]) -> bool {
    match collected {
        Collected::Row(row) => match row.values() {
            [Value::Int(x), Value::Int(y), Value::Int(z), Value::Int(w)] => {
                [*x, *y, *z, *w] == wanted
            }
            _ => false,
        },
        _ => false,
    }
}

// How often nothing was there at a pull of a member's source.
fn waits(collector: &AtomCollector<MemSource>, index: usize) -> Option<u64> {
    if index >= collector.len() {
        return None;
    }
    Some(collector.member(index).waited)
}

// The script has a turn for each pull, so a pull in between shows.
#[test]
fn accepts_what_is_held_without_a_pull(rt: HostRuntime) -> Result<(), Fail> {
    let alloc = rt.alloc();
    let script = Script {
        turns: vec![in alloc; Turn::Give(27), Turn::NotYet]?,
        then: Turn::Give(100),
    };
    let text = b"a,b,c,d\n1,2,3,4\n5,6,7,8\n9,9,10,11\n";
    let sites = vec![in alloc; site(alloc, "first", text, script)?]?;
    let mut opener = MemOpener::new(alloc, sites, Vec::new(alloc));
    let mut collector = collector(alloc, plain_selection(alloc)?)?;
    assert!(rt; collector.len() == 2);
    assert!(rt; matches!(collector.accept(alloc, 0), Collected::Still));
    open(alloc, &mut collector, &mut opener, 0)?;
    assert!(rt; collector.len() == 2);
    assert!(rt; matches!(collector.accept(alloc, 0), Collected::Still));

    assert!(rt; matches!(collector.step(alloc, 0), Collected::Moved));
    assert!(rt; gives(collector.accept(alloc, 0), [1, 2, 3, 4]));
    assert!(rt; gives(collector.accept(alloc, 0), [5, 6, 7, 8]));
    assert!(rt; matches!(collector.accept(alloc, 0), Collected::Still));
    assert_eq!(rt; stand(&collector, 0), Some((MemberState::Active, None, 2)));
    assert_eq!(rt; waits(&collector, 0), Some(0));

    assert!(rt; matches!(collector.step(alloc, 0), Collected::Still));
    assert!(rt; matches!(collector.accept(alloc, 0), Collected::Still));
    assert_eq!(rt; waits(&collector, 0), Some(1));

    assert!(rt; matches!(collector.step(alloc, 0), Collected::Moved));
    assert!(rt; gives(collector.accept(alloc, 0), [9, 9, 10, 11]));
    assert!(rt; matches!(collector.step(alloc, 0), Collected::Moved));
    assert!(rt; matches!(collector.accept(alloc, 0), Collected::Still));
    assert_eq!(rt; stand(&collector, 0), Some((MemberState::Ended, None, 3)));
    Ok(())
}

// A value that may be handed to another thread.
fn sends<T: Send>(_value: &T) {}

#[test]
fn finds_members_by_their_names(rt: HostRuntime) -> Result<(), Fail> {
    let alloc = rt.alloc();
    let collector = collector(alloc, selection(alloc)?)?;
    sends(&collector);
    for (group, mirror, wanted) in [(1, 1, Some(0)), (2, 1, Some(1)), (2, 2, None), (3, 1, None)] {
        let name = MemberName {
            atom: 1,
            group,
            mirror,
        };
        assert_eq!(rt; collector.find(name), wanted);
    }
    Ok(())
}
