//! What no clause says: that rows come, whatever the order of the steps, compared with rows by hand.

ghost use Rattle.std.specs.Prelude.{◌≡◌, ◌<◌, length, IfOk};
ghost use Rattle.step_core.specs.Planting.{FitsAtom};

use crate::{Actor, FreshTree, Net, NetAtom, NetJoin, StepEnd};
use med_base::{MemOpener, MemSource, MemberName, MemberState, Name, Opener, Script, Site, Turn};
use row_match::{Pattern, Term};
use row_pages::Rows;
use std::alloc::Global;
use std::test::Fail;
use tuple_core::{Column, Columns, EncodedRow, Kind, Text, ValueRef, Words};

/// The source of an atom, whose columns are a, of integers, and b. Its variables are the atom's number and the next.
struct Data {
    atom: u32,
    location: &'static str,
    text: &'static [u8],
    second: Kind,
}

/// The sources of a net's atoms, and the rows that it gives, over its variables. A text of one letter stands here as
/// the letter's number.
struct Case {
    atoms: &'static [Data],
    wanted: &'static [&'static [i64]],
}

/// r(x, y), s(y, z), t(z, w).
const CHAIN: Case = Case {
    atoms: &[
        Data {
            atom: 1,
            location: "r",
            text: b"a,b\n1,10\n2,20\n3,10\n",
            second: Kind::Int,
        },
        Data {
            atom: 2,
            location: "s",
            text: b"a,b\n10,100\n20,200\n10,300\n",
            second: Kind::Int,
        },
        Data {
            atom: 3,
            location: "t",
            text: b"a,b\n100,7\n200,8\n100,9\n300,7\n",
            second: Kind::Int,
        },
    ],
    wanted: &[
        &[1, 10, 100, 7],
        &[1, 10, 100, 9],
        &[1, 10, 300, 7],
        &[2, 20, 200, 8],
        &[3, 10, 100, 7],
        &[3, 10, 100, 9],
        &[3, 10, 300, 7],
    ],
};

/// r(x, y), s(y, z), where z is a text.
const TEXTS: Case = Case {
    atoms: &[
        Data {
            atom: 1,
            location: "r",
            text: b"a,b\n1,10\n2,20\n3,30\n",
            second: Kind::Int,
        },
        Data {
            atom: 2,
            location: "s",
            text: b"a,b\n20,b\n30,c\n40,d\n",
            second: Kind::Text,
        },
    ],
    wanted: &[&[2, 20, 98], &[3, 30, 99]],
};

/// e(x, y), e(y, z): two sources of one location.
const ITSELF: Case = Case {
    atoms: &[
        Data {
            atom: 1,
            location: "e",
            text: b"a,b\n1,2\n2,3\n2,4\n3,4\n",
            second: Kind::Int,
        },
        Data {
            atom: 2,
            location: "e",
            text: b"a,b\n1,2\n2,3\n2,4\n3,4\n",
            second: Kind::Int,
        },
    ],
    wanted: &[&[1, 2, 3], &[1, 2, 4], &[2, 3, 4]],
};

/// a(x, u), b(y, v), which share no variable.
const PRODUCT: Case = Case {
    atoms: &[
        Data {
            atom: 1,
            location: "a",
            text: b"a,b\n1,0\n2,0\n3,0\n",
            second: Kind::Int,
        },
        Data {
            atom: 3,
            location: "b",
            text: b"a,b\n4,0\n5,0\n6,0\n7,0\n",
            second: Kind::Int,
        },
    ],
    wanted: &[
        &[1, 0, 4, 0],
        &[1, 0, 5, 0],
        &[1, 0, 6, 0],
        &[1, 0, 7, 0],
        &[2, 0, 4, 0],
        &[2, 0, 5, 0],
        &[2, 0, 6, 0],
        &[2, 0, 7, 0],
        &[3, 0, 4, 0],
        &[3, 0, 5, 0],
        &[3, 0, 6, 0],
        &[3, 0, 7, 0],
    ],
};

/// In which order steps are made.
#[derive(Clone, Copy)]
enum Order {
    Forward,
    Backward,
    /// No operator says that no more rows will come.
    Unclosed,
    /// By numbers that come from a fixed seed.
    Mixed,
}

fn column(alloc: Global, name: &str, kind: Kind) -> Result<Column, Fail> {
    Ok(Column {
        name: Text::from_str(alloc, name)?,
        kind,
    })
}

// No number from 63 on, so that each variable has one.
fn atom_of(data: &Data) -> u32
    ensures { result < 63 }
{
    data.atom % 63
}

fn atom(alloc: Global, data: &Data) -> Result<NetAtom, Fail>
    ensures { IfOk result FitsAtom }
{
    let atom = atom_of(data);
    let terms = vec![in alloc; Term::Variable(atom), Term::Variable(atom + 1)]?;
    let first = column(alloc, "a", Kind::Int)?;
    let columns = vec![in alloc; first, column(alloc, "b", data.second)?]?;
    let mirrors = Words::from_vec(vec![in alloc; Text::from_str(alloc, data.location)?]?);
    Ok(NetAtom {
        atom,
        columns: Columns::from_vec(columns),
        pattern: Pattern::new(alloc, terms)?,
        comparisons: Vec::new(alloc),
        groups: vec![in alloc; mirrors]?,
    })
}

fn leaf(alloc: Global, case: &Case, index: usize) -> Result<FreshTree<MemSource>, Fail> {
    let data = case.atoms.get(index).ok_or("no such atom")?;
    let tree = FreshTree::atom(alloc, atom(alloc, data)?)?;
    Ok(tree)
}

fn joined(
    alloc: Global,
    join: u32,
    left: FreshTree<MemSource>,
    right: FreshTree<MemSource>,
) -> Result<FreshTree<MemSource>, Fail> {
    let join = NetJoin {
        join,
        buckets: 4,
        comparisons: Vec::new(alloc),
    };
    let tree = FreshTree::join(alloc, left, right, join)?;
    Ok(tree)
}

fn tree(alloc: Global, case: &Case, deep_right: bool) -> Result<FreshTree<MemSource>, Fail> {
    let count = case.atoms.len();
    let at = if deep_right {
        count.saturating_sub(2)
    } else {
        0
    };
    let left = leaf(alloc, case, at)?;
    let right = leaf(alloc, case, at + 1)?;
    let pair = joined(alloc, 1, left, right)?;
    if count == 2 {
        return Ok(pair);
    }
    if deep_right {
        let left = leaf(alloc, case, 0)?;
        joined(alloc, 2, left, pair)
    } else {
        let right = leaf(alloc, case, 2)?;
        joined(alloc, 2, pair, right)
    }
}

// A few bytes a pull, with nothing there before some.
fn site(alloc: Global, data: &Data, size: usize) -> Result<Site, Fail> {
    let script = Script {
        turns: vec![in alloc; Turn::NotYet, Turn::Give(size), Turn::NotYet]?,
        then: Turn::Give(size),
    };
    Ok(Site {
        location: Text::from_str(alloc, data.location)?,
        text: Vec::from_slice(alloc, data.text)?,
        script,
    })
}

fn opener(alloc: Global, case: &Case) -> Result<MemOpener, Fail> {
    let mut sites = Vec::new(alloc);
    for (index, data) in case.atoms.iter().enumerate() {
        let size = match index {
            0 => 3,
            1 => 7,
            _ => 50,
        };
        sites.push(site(alloc, data, size)?)?;
    }
    Ok(MemOpener::new(alloc, sites, Vec::new(alloc)))
}

fn member(atom: u32) -> MemberName {
    MemberName {
        atom,
        group: 1,
        mirror: 1,
    }
}

// Opens a member that wasn't opened yet.
fn open(
    alloc: Global,
    net: &mut Net<MemSource>,
    opener: &mut MemOpener,
    name: MemberName,
) -> Result<(), Fail> {
    let now = net.member(name).ok_or("no such member")?;
    if now.state != MemberState::Idle {
        return Err(Fail::from("opened twice"));
    }
    let location = net.location(name).ok_or("no such member")?;
    let location = Text::from_str(alloc, location)?;
    let Ok(source) = opener.open_at(alloc, location.as_str()) else {
        return Err(Fail::from("not opened"));
    };
    net.give(alloc, name, source)?;
    Ok(())
}

// Those of the net, those that say that no more rows will come behind the others; and some that aren't in it.
fn actors() -> [Actor; 16] {
    [
        Actor::Pull(member(1)),
        Actor::Pull(member(2)),
        Actor::Pull(member(3)),
        Actor::Pull(member(9)),
        Actor::Edge(Name::Atom(1)),
        Actor::Edge(Name::Atom(2)),
        Actor::Edge(Name::Atom(3)),
        Actor::Edge(Name::Join(1)),
        Actor::Edge(Name::Join(2)),
        Actor::Edge(Name::Fragment(1)),
        Actor::Closing(Name::Join(9)),
        Actor::Closing(Name::Atom(1)),
        Actor::Closing(Name::Atom(2)),
        Actor::Closing(Name::Atom(3)),
        Actor::Closing(Name::Join(1)),
        Actor::Closing(Name::Join(2)),
    ]
}

fn schedule(alloc: Global, order: Order) -> Result<Vec<Actor>, Fail> {
    let actors = actors();
    let mut schedule = Vec::new(alloc);
    let mut seed = 2_463_534_242u32;
    for step in 0..1_000usize {
        seed = seed.wrapping_mul(1_664_525).wrapping_add(1_013_904_223);
        let index = match order {
            Order::Forward => step % 16,
            Order::Backward => 15 - step % 16,
            Order::Unclosed => step % 11,
            Order::Mixed => (seed >> 28) as usize,
        };
        schedule.push(actors[index])?;
    }
    Ok(schedule)
}

fn run(alloc: Global, net: &mut Net<MemSource>, order: Order) -> Result<(), Fail> {
    let steps = schedule(alloc, order)?;
    match net.run(alloc, steps.as_slice()) {
        StepEnd::Moved | StepEnd::Still => Ok(()),
        StepEnd::NoMemory => Err(Fail::from("out of memory")),
    }
}

fn is(row: &EncodedRow<'_>, wanted: &[i64]) -> bool {
    let mut values = row.values();
    for number in wanted {
        match values.next() {
            Some(ValueRef::Int(value)) if value == *number => {}
            Some(ValueRef::Text(text)) if text.iter().all(|byte| i64::from(*byte) == *number) => {}
            _ => return false,
        }
    }
    values.next().is_none()
}

fn has(rows: &Rows, wanted: &[i64]) -> bool {
    for row in rows.iter() {
        if is(&row, wanted) {
            return true;
        }
    }
    false
}

fn are_wanted(rows: &Rows, case: &Case) -> bool {
    rows.len() == case.wanted.len() && case.wanted.iter().all(|wanted| has(rows, wanted))
}

fn net(alloc: Global, case: &Case, deep_right: bool) -> Result<Net<MemSource>, Fail> {
    let mut net = Net::over(alloc, tree(alloc, case, deep_right)?);
    let mut opener = opener(alloc, case)?;
    for data in case.atoms {
        open(alloc, &mut net, &mut opener, member(atom_of(data)))?;
    }
    Ok(net)
}

// Whether the net has finished once these steps were made, and whether it has the rows by hand in the end.
fn ends(alloc: Global, case: &Case, deep_right: bool, order: Order) -> Result<(bool, bool), Fail> {
    let mut net = net(alloc, case, deep_right)?;
    run(alloc, &mut net, order)?;
    let early = net.finished();
    run(alloc, &mut net, Order::Forward)?;
    let wanted = are_wanted(net.rows(), case);
    Ok((early, net.finished() && wanted))
}

#[test]
fn gives_the_same_rows_in_any_order_of_steps(rt: HostRuntime) -> Result<(), Fail> {
    let alloc = rt.alloc();
    let orders = [
        (Order::Forward, true),
        (Order::Backward, true),
        (Order::Mixed, true),
        (Order::Unclosed, false),
    ];
    for (order, early) in orders {
        for case in [&TEXTS, &ITSELF, &PRODUCT, &CHAIN] {
            assert_eq!(rt; ends(alloc, case, false, order)?, (early, true));
        }
        assert_eq!(rt; ends(alloc, &CHAIN, true, order)?, (early, true));
    }
    Ok(())
}

// A hundred passes, of which the last ones do nothing.
fn passes(alloc: Global, case: &Case, deep_right: bool) -> Result<(bool, bool), Fail> {
    let mut net = net(alloc, case, deep_right)?;
    let mut last = (StepEnd::Moved, StepEnd::Moved);
    for _ in 0..100 {
        last = (net.read_members(alloc), net.drain(alloc));
    }
    let wanted = are_wanted(net.rows(), case);
    Ok((
        last == (StepEnd::Still, StepEnd::Still),
        net.finished() && wanted,
    ))
}

#[test]
fn passes_give_the_same_rows(rt: HostRuntime) -> Result<(), Fail> {
    let alloc = rt.alloc();
    for case in [&TEXTS, &ITSELF, &PRODUCT, &CHAIN] {
        assert_eq!(rt; passes(alloc, case, false)?, (true, true));
    }
    assert_eq!(rt; passes(alloc, &CHAIN, true)?, (true, true));
    Ok(())
}
