//! What was read of a rule, and so what may come.

ghost use Rattle.std.specs.Prelude.{◌≡◌};
ghost use Rattle.rule_reader.specs.Machine.{finished_rule};

use crate::keyword::{ActionWord, EventWord, TestWord};
use crate::nesting::{Nest, Tested};
use crate::rule::{Action, Amount, Condition, Event, NumberOp, Rule};
use med_base::{MemberName, Name};
use sqlite_items::Boxed;

/// What a word before parentheses belongs to.
#[derive(Drop)]
pub enum Callee {
    Event(EventWord),
    /// A test, or the left side of a comparison.
    Test(Boxed<Nest>, TestWord),
    /// The right side of a comparison, a count.
    Right(Boxed<Nest>, Amount, NumberOp),
    Act(Boxed<Rule>, ActionWord),
}

/// A call whose second argument is still to come.
#[derive(Drop)]
pub enum Pending {
    Timeout(MemberName),
    Threshold(Name),
    Method(Boxed<Rule>, u32),
    Quota(Boxed<Rule>, u32),
}

/// A call with all its arguments.
#[derive(Drop)]
pub enum Phrase {
    Event(Event),
    Test(Boxed<Nest>, Boxed<Condition>),
    /// The left side of a comparison.
    Left(Boxed<Nest>, Amount),
    Act(Boxed<Rule>, Action),
}

/// What was read, and so what may come.
#[derive(Drop)]
pub enum State {
    /// Nothing; `when` comes.
    Start,
    /// `when`; an event comes.
    EventDue,
    /// An event; `if` comes.
    EventRead(Event),
    /// A word that has arguments; `(` comes.
    Called(Callee),
    /// `(` of a call; its first argument comes.
    ArgumentDue(Callee),
    /// The first of two arguments; a comma comes.
    CommaDue(Pending),
    /// A comma; the second argument comes.
    SecondDue(Pending),
    /// All arguments; `)` comes.
    CloseDue(Phrase),
    /// What a test comes after.
    TestDue(Boxed<Nest>),
    /// The left side of a comparison; an operator comes.
    OpDue(Boxed<Nest>, Amount),
    /// An operator; the right side comes.
    RightDue(Boxed<Nest>, Amount, NumberOp),
    /// A test; `and`, `or`, `)` or `then` comes.
    TestRead(Boxed<Tested>),
    /// `then` or a comma; an action comes.
    ActionDue(Boxed<Rule>),
    /// An action; a comma or nothing comes.
    ActionRead(Boxed<Rule>),
}

/// The rule, once an action was read.
pub fn finished_rule(state: State) -> Option<Rule>
    ensures { result ≡ finished_rule state }
{
    match state {
        State::ActionRead(rule) => Some(rule.into_inner()),
        _ => None,
    }
}
