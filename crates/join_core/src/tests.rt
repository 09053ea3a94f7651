//! What no clause says: that rows are taken and matches come, compared with answers by hand and with nested choice.

ghost use Rattle.std.specs.Prelude.{◌≡◌, ◌<◌, ◌≤◌, length, None, IfOk, OnOk};
ghost use Rattle.join_core.specs.Testing.{IsReady};
ghost use Rattle.tuple_core.specs.Values.{FitsValue};

use crate::{Arrive, Join, OutStep};
use med_prelude::Listed;
use query_core::{Arrivals, Atom, Query, Term};
use query_model::slow_heads;
use row_match::{JoinShape, Side, Vars};
use row_pages::Rows;
use std::alloc::Global;
use std::test::Fail;
use tuple_core::{Kind, Row, Value, parse_value};

// Which variables the right rows have, beside left rows of x and y.
#[derive(Clone, Copy)]
enum Right {
    // y and z
    Linked,
    // z and w, so that nothing is shared
    Apart,
    // y and x, so that all is shared
    Turned,
}

// The integer, but for two numbers, which stand for two texts whose keys have one hash.
fn value(alloc: Global, number: i64) -> Result<Value, Fail>
    ensures { IfOk result FitsValue }
{
    let text = match number {
        -1 => "mvooxhed",
        -2 => "pcevaecc",
        _ => return Ok(Value::Int(number)),
    };
    Ok(parse_value(alloc, Kind::Text, text.as_bytes())?.ok_or("no value")?)
}

fn pair(alloc: Global, first: i64, second: i64) -> Result<Row, Fail>
    ensures { IfOk result (λ row. length row ≡ 2) }
{
    Ok(Row::new(vec![in alloc; value(alloc, first)?, value(alloc, second)?]?))
}

fn shape_of(alloc: Global, right: Right) -> Result<JoinShape, Fail>
    ensures { IfOk result (λ shape. (length shape.left ≡ 2) × (length shape.right ≡ 2)) }
{
    let left = Vars::new(vec![in alloc; 0, 1]?);
    let shape = match right {
        Right::Linked => JoinShape::new(alloc, &left, &Vars::new(vec![in alloc; 1, 2]?))?,
        Right::Apart => JoinShape::new(alloc, &left, &Vars::new(vec![in alloc; 2, 3]?))?,
        Right::Turned => JoinShape::new(alloc, &left, &Vars::new(vec![in alloc; 1, 0]?))?,
    };
    Ok(shape)
}

fn join_of(alloc: Global, right: Right, buckets: u32) -> Result<Join, Fail>
    requires { 0 < buckets }
    ensures { IfOk result IsReady }
{
    Ok(Join::new(alloc, shape_of(alloc, right)?, buckets)?)
}

// All matches of the row that came last.
fn drain(alloc: Global, join: &mut Join, given: &mut Vec<Row>) -> Result<(), Fail>
    ensures { OnOk result (join.new ≡ record join.old { probe = None }) }
{
    loop {
        match join.next_out(alloc) {
            OutStep::Row(row) => given.push(row)?,
            OutStep::Nothing => return Ok(()),
            OutStep::NoMemory => return Err(Fail::from("out of memory")),
        }
    }
}

// A row comes, and gives all its matches.
fn feed(
    alloc: Global,
    join: &mut Join,
    event: (Side, i64, i64),
    given: &mut Vec<Row>,
) -> Result<(), Fail>
    requires { IsReady join.old }
    ensures { OnOk result (IsReady join.new) }
{
    let (side, first, second) = event;
    match join.arrive(alloc, side, pair(alloc, first, second)?) {
        Arrive::Taken => drain(alloc, join, given),
        Arrive::NoMemory(_) => Err(Fail::from("out of memory")),
    }
}

// What a join gives for rows that come in this order, sorted.
fn given(alloc: Global, join: Join, events: &[(Side, i64, i64)]) -> Result<Vec<Row>, Fail>
    requires { IsReady join }
{
    let mut join = join;
    let mut rows = Vec::new(alloc);
    for event in events {
        feed(alloc, &mut join, *event, &mut rows)?;
    }
    join.close(Side::Left);
    if join.finished() {
        return Err(Fail::from("finished before the right side ended"));
    }
    join.close(Side::Right);
    if !join.finished() {
        return Err(Fail::from("not finished"));
    }
    rows.sort()?;
    Ok(rows)
}

/// The key 1, of bucket 8, on both sides: the second row gives one match, the third one, and the fourth two. A row of two
/// integers weighs 19 bytes.
#[test]
fn each_row_gives_its_matches_at_once(rt: HostRuntime) -> Result<(), Fail> {
    let alloc = rt.alloc();
    let mut join = join_of(alloc, Right::Linked, 16)?;
    let events = [
        ((Side::Left, 10, 1), 0, 19, 0),
        ((Side::Right, 1, 20), 1, 19, 19),
        ((Side::Left, 11, 1), 2, 38, 19),
        ((Side::Right, 1, 21), 4, 38, 38),
    ];
    let mut rows = Vec::new(alloc);
    for (event, so_far, left, right) in events {
        feed(alloc, &mut join, event, &mut rows)?;
        assert_eq!(rt; rows.len(), so_far);
        assert_eq!(rt; join.weights(Side::Left).get(8).copied(), Some(left));
        assert_eq!(rt; join.weights(Side::Right).get(8).copied(), Some(right));
    }
    let expected = [(10, 20), (11, 20), (10, 21), (11, 21)];
    for (row, (x, z)) in rows.iter().zip(expected) {
        let expected = vec![in alloc; Value::Int(x), Value::Int(1), Value::Int(z)]?;
        assert_eq!(rt; row, &Row::new(expected));
    }
    Ok(())
}

/// A thousand left rows of one key, and two right ones, one in their midst and one behind them.
#[test]
fn a_key_may_come_a_thousand_times(rt: HostRuntime) -> Result<(), Fail> {
    let alloc = rt.alloc();
    let mut events = Vec::new(alloc);
    for x in 0..1_000u16 {
        if x == 500 {
            events.push((Side::Right, 7, 1))?;
        }
        events.push((Side::Left, i64::from(x), 7))?;
    }
    events.push((Side::Right, 7, 0))?;
    let rows = given(alloc, join_of(alloc, Right::Linked, 16)?, events.as_slice())?;
    assert_eq!(rt; rows.len(), 2_000);
    for (index, row) in rows.iter().enumerate() {
        let x = Value::Int((index / 2) as i64);
        let z = Value::Int((index % 2) as i64);
        assert_eq!(rt;
            row,
            &Row::new(vec![in alloc; x, Value::Int(7), z]?),
            "{index}"
        );
    }
    Ok(())
}

// The query of the two atoms, whose head has the variables of a glued row.
fn query(alloc: Global, right: Right) -> Result<Query, Fail>
    ensures { IfOk result (λ query. length query.head ≤ 4) }
{
    let (variables, head) = match right {
        Right::Linked => ([1, 2], vec![in alloc; 0, 1, 2]?),
        Right::Apart => ([2, 3], vec![in alloc; 0, 1, 2, 3]?),
        Right::Turned => ([1, 0], vec![in alloc; 0, 1]?),
    };
    let mut atoms = Listed::new(alloc);
    for variables in [[0, 1], variables] {
        let mut terms = Listed::new(alloc);
        for variable in variables {
            terms.push(Term::Variable(variable))?;
        }
        atoms.push(Atom { relation: 0, terms })?;
    }
    Ok(Query {
        head: Listed::from_vec(head),
        atoms,
        comparisons: Listed::new(alloc),
    })
}

// What nested choice gives for the same rows, sorted.
fn chosen(alloc: Global, right: Right, events: &[(Side, i64, i64)]) -> Result<Vec<Row>, Fail> {
    let mut arrivals = Arrivals::new(alloc);
    for side in [Side::Left, Side::Right] {
        let mut rows = Rows::new(alloc);
        for (own, first, second) in events {
            if *own == side {
                rows.push(alloc, &pair(alloc, *first, *second)?)?;
            }
        }
        arrivals.push(rows)?;
    }
    let mut rows = Vec::new(alloc);
    for row in slow_heads(alloc, &query(alloc, right)?, &arrivals)?.iter() {
        rows.push(row.to_row(alloc)?)?;
    }
    rows.sort()?;
    Ok(rows)
}

/// Small sides with few integers and texts, in a random order: what shares one variable, none or both gives what nested
/// choice gives, each as often.
#[test]
fn random_sides_give_what_nested_choice_gives(rt: HostRuntime) -> Result<(), Fail> {
    let alloc = rt.alloc();
    let mut random = 1u32;
    for round in 0..70 {
        let mut events = Vec::new(alloc);
        for _ in 0..24 {
            random = random.wrapping_mul(1_664_525).wrapping_add(1_013_904_223);
            let side = if random >> 31 == 0 {
                Side::Left
            } else {
                Side::Right
            };
            let first = i64::from((random >> 24) % 4) - 2;
            let second = i64::from((random >> 16) % 4) - 2;
            events.push((side, first, second))?;
        }
        let events = events.as_slice();
        let linked = given(alloc, join_of(alloc, Right::Linked, 16)?, events)?;
        assert_eq!(rt; linked, chosen(alloc, Right::Linked, events)?, "{round}");
        let apart = given(alloc, join_of(alloc, Right::Apart, 64)?, events)?;
        assert_eq!(rt; apart, chosen(alloc, Right::Apart, events)?, "{round}");
        let turned = given(alloc, join_of(alloc, Right::Turned, 256)?, events)?;
        assert_eq!(rt; turned, chosen(alloc, Right::Turned, events)?, "{round}");
    }
    Ok(())
}

fn may_be_sent<T: Send>() {}

/// A join and what it answers may be handed to another thread.
#[test]
fn joins_are_sent(_rt: HostRuntime) {
    may_be_sent::<Join>();
    may_be_sent::<Arrive>();
    may_be_sent::<OutStep>();
}
