//! Rules as plain values: when an event comes, and if a condition holds, then actions are done.

use med_base::{MemberName, Name};
use med_prelude::{Listed, Text};
use sqlite_items::Boxed;

/// What a rule waits for.
#[derive(Clone, Copy, Debug, PartialEq, Eq)]
pub enum Event {
    /// A member or a fragment was opened.
    Opened(Name),
    /// A member, an atom, a join or a fragment came to its end.
    Closed(Name),
    /// A member failed.
    Error(MemberName),
    /// A member gave nothing for so long, in units of the clock.
    Timeout(MemberName, u64),
    /// A member or a join gave so many rows.
    Threshold(Name, u64),
    /// A join had no memory for a row.
    OutOfMemory(u32),
}

/// How two numbers are compared.
#[derive(Clone, Copy, Debug, PartialEq, Eq)]
pub enum NumberOp {
    Eq,
    Ne,
    Lt,
    Le,
    Gt,
    Ge,
}

/// A side of a comparison.
#[derive(Clone, Copy, Debug, PartialEq, Eq)]
pub enum Amount {
    Number(u64),
    /// How many rows a member or a join gave.
    Count(Name),
}

/// A condition as it is written, with its parentheses.
#[derive(Debug, Drop)]
pub enum Condition {
    True,
    Active(MemberName),
    /// Whether the rule of that name has fired.
    Fired(Text),
    Compares(Amount, NumberOp, Amount),
    Not(Boxed<Condition>),
    /// A condition in parentheses.
    Group(Boxed<Condition>),
    And(Boxed<Condition>, Boxed<Condition>),
    Or(Boxed<Condition>, Boxed<Condition>),
}

/// How a join takes its two sides.
#[derive(Clone, Copy, Debug, PartialEq, Eq)]
pub enum Method {
    Left,
    Symmetric,
}

/// What a rule does. A join is said by its number.
#[derive(Clone, Copy, Debug, PartialEq, Eq)]
pub enum Action {
    Activate(MemberName),
    Deactivate(MemberName),
    Method(u32, Method),
    Quota(u32, u64),
    Replan,
    Stop,
}

/// A rule. Its actions are done in their order; there is at least one.
#[derive(Debug, Drop)]
pub struct Rule {
    pub event: Event,
    pub condition: Boxed<Condition>,
    pub actions: Listed<Action>,
}
