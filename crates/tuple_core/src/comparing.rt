//! How values and rows compare.

ghost use Rattle.std.specs.Prelude.{◌≡◌};
ghost use Rattle.tuple_core.specs.Comparing.{compares, operator_holds};
ghost use Rattle.tuple_core.specs.Encoded.{value_seen};
ghost use Rattle.tuple_core.specs.Order.{value_eq};
ghost use Rattle.tuple_core.specs.Values.{row_cmp};

use crate::encoded::ValueRef;
use crate::row::Row;
use std::cmp::Ordering;

/// An operator between two values of one kind.
#[derive(Clone, Copy, Debug, PartialEq, Eq)]
pub enum Op {
    Eq,
    Ne,
    Lt,
    Le,
    Gt,
    Ge,
}

fn operator_holds(op: Op, order: Ordering) -> bool
    ensures { result ≡ operator_holds op order }
{
    match op {
        Op::Eq => order.is_eq(),
        Op::Ne => order.is_ne(),
        Op::Lt => order.is_lt(),
        Op::Le => order.is_le(),
        Op::Gt => order.is_gt(),
        Op::Ge => order.is_ge(),
    }
}

/// Whether the operator holds between the values. Between two kinds none does, `Ne` included.
pub fn compare(op: Op, x: ValueRef<'_>, y: ValueRef<'_>) -> bool
    ensures { result ≡ compares op (value_seen x.entry) (value_seen y.entry) }
{
    match (x, y) {
        (ValueRef::Int(x), ValueRef::Int(y)) => operator_holds(op, x.cmp(&y)),
        (ValueRef::Text(x), ValueRef::Text(y)) => operator_holds(op, x.cmp(y)),
        (ValueRef::Bool(x), ValueRef::Bool(y)) => operator_holds(op, x.cmp(&y)),
        _ => false,
    }
}

/// Whether two values are the same.
pub fn same_value(x: ValueRef<'_>, y: ValueRef<'_>) -> bool
    ensures { result ≡ value_eq (value_seen x.entry) (value_seen y.entry) }
{
    match (x, y) {
        (ValueRef::Int(x), ValueRef::Int(y)) => x == y,
        (ValueRef::Text(x), ValueRef::Text(y)) => x == y,
        (ValueRef::Bool(x), ValueRef::Bool(y)) => x == y,
        _ => false,
    }
}

/// The order in which rows are printed.
pub fn row_order(x: &Row, y: &Row) -> Ordering
    ensures { result ≡ row_cmp x.now y.now }
{
    x.cmp(y)
}
