//! Rows matched, tested and joined, with expected values by hand.

ghost use Rattle.std.specs.Prelude.{◌≡◌, IfOk, length};
ghost use Rattle.tuple_core.specs.Values.{FitsValue};

use super::*;
use std::alloc::{AllocError, Global};
use std::test::Fail;
use tuple_core::{KeyRoom, Op, Row, Value};

fn triple(alloc: Global, first: i64, second: i64, third: i64) -> Result<Row, AllocError>
    ensures { IfOk result (λ row. length row ≡ 3) }
{
    Ok(Row::new(vec![in alloc; Value::Int(first), Value::Int(second), Value::Int(third)]?))
}

fn pair(alloc: Global, first: Value, second: i64) -> Result<Row, AllocError>
    requires { FitsValue first }
    ensures { IfOk result (λ row. length row ≡ 2) }
{
    Ok(Row::new(vec![in alloc; first, Value::Int(second)]?))
}

// The values are kept in the order in which their variables first stand.
#[test]
fn matches_constants_and_repeated_variables(rt: HostRuntime) -> Result<(), Fail> {
    let alloc = rt.alloc();
    let terms = vec![in alloc;
        Term::Variable(5),
        Term::Constant(Value::Int(7)),
        Term::Variable(5),
    ]?;
    let pattern = Pattern::new(alloc, terms)?;
    for (second, third, fits) in [(7, 1, true), (7, 2, false), (8, 1, false)] {
        let matched = pattern.match_row(alloc, &triple(alloc, 1, second, third)?)?;
        assert_eq!(rt; matched.is_some(), fits);
    }
    let terms = vec![in alloc; Term::Variable(2), Term::Variable(0), Term::Variable(2)]?;
    let pattern = Pattern::new(alloc, terms)?;
    assert_eq!(rt; pattern.variables().as_slice(), [2, 0].as_slice());
    let matched = pattern.match_row(alloc, &triple(alloc, 4, 3, 4)?)?;
    assert_eq!(rt; matched, Some(pair(alloc, Value::Int(4), 3)?));
    Ok(())
}

// Whether the second value compares so with the first: the variables stand in the other order than the sides.
fn holds(alloc: Global, op: Op, row: &Row) -> Result<bool, AllocError>
    requires { length row.now ≡ 2 }
{
    let comparison = Comparison {
        left: Term::Variable(1),
        op,
        right: Term::Variable(3),
    };
    let filter = Filter::new(
        Vars::new(vec![in alloc; 3, 1]?),
        vec![in alloc; comparison]?,
    );
    Ok(filter.holds(row))
}

#[test]
fn compares_two_variables(rt: HostRuntime) -> Result<(), Fail> {
    let alloc = rt.alloc();
    let cases = [
        (Op::Lt, 2, 1, true),
        (Op::Lt, 1, 2, false),
        (Op::Lt, 2, 2, false),
        (Op::Le, 2, 2, true),
    ];
    for (op, first, second, wanted) in cases {
        let row = pair(alloc, Value::Int(first), second)?;
        assert_eq!(rt; holds(alloc, op, &row)?, wanted);
    }
    let of_two_kinds = pair(alloc, Value::Bool(true), 1)?;
    for op in [Op::Eq, Op::Ne, Op::Lt, Op::Le, Op::Gt, Op::Ge] {
        assert!(rt; !holds(alloc, op, &of_two_kinds)?);
    }
    Ok(())
}

// Shared values are glued once, and their key has them in the left side's order.
#[test]
fn joins_rows(rt: HostRuntime) -> Result<(), Fail> {
    let alloc = rt.alloc();
    let left = Vars::new(vec![in alloc; 0, 1, 2]?);
    let right = Vars::new(vec![in alloc; 2, 3, 1]?);
    let shape = JoinShape::new(alloc, &left, &right)?;
    assert_eq!(rt; shape.variables().as_slice(), [0, 1, 2, 3].as_slice());
    let left_row = triple(alloc, 9, 1, 2)?;
    let glued = shape.glue(alloc, &left_row, &triple(alloc, 2, 7, 1)?)?;
    let wanted = vec![in alloc; Value::Int(9), Value::Int(1), Value::Int(2), Value::Int(7)]?;
    assert_eq!(rt; glued, Row::new(wanted));
    let mut room = KeyRoom::new(alloc)?;
    shape.key_of(Side::Left, &left_row, &mut room);
    assert_eq!(rt;
        room.as_slice(),
        b"\x02\x01\0\0\0\0\0\0\0\x01\x01\0\0\0\0\0\0\0\x02".as_slice()
    );
    for (first, last, same) in [(2, 1, true), (1, 2, false)] {
        let mut other = KeyRoom::new(alloc)?;
        shape.key_of(Side::Right, &triple(alloc, first, 7, last)?, &mut other);
        assert_eq!(rt; room.as_slice() == other.as_slice(), same);
    }
    Ok(())
}
