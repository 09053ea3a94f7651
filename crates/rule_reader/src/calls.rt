//! Words with arguments in parentheses.

ghost use Rattle.std.specs.Prelude.{◌≡◌, IfOk};
ghost use Rattle.rule_reader.specs.Grammar.{is_counted, is_opened};
ghost use Rattle.rule_reader.specs.Machine.{action_argument, active_argument, closed, event_argument, fired_argument, left_argument, right_argument, with_action, with_argument, with_method, with_number, with_test};
ghost use Rattle.rule_reader.specs.declared.state.State.TheVariants.{TestRead};

use crate::keyword::{ActionWord, EventWord, TestWord};
use crate::naming::part_in;
use crate::nesting::{Nest, with_test};
use crate::rule::{Action, Amount, Condition, Event, Method, NumberOp, Rule};
use crate::state::{Callee, Pending, Phrase, State};
use med_base::Name;
use med_prelude::Text;
use sqlite_items::Boxed;
use std::alloc::{AllocError, Global};
use text_reading::name_in;

fn is_opened(name: Name) -> bool
    ensures { result ≡ is_opened name }
{
    match name {
        Name::Member(_) | Name::Fragment(_) => true,
        Name::Atom(_) | Name::Join(_) => false,
    }
}

fn is_counted(name: Name) -> bool
    ensures { result ≡ is_counted name }
{
    match name {
        Name::Member(_) | Name::Join(_) => true,
        Name::Atom(_) | Name::Fragment(_) => false,
    }
}

/// What a word leads to as the first argument of a call, where it may be that.
pub fn with_argument(
    alloc: Global,
    callee: Callee,
    word: &[u8],
) -> Result<Option<State>, AllocError>
    ensures { IfOk result (λ state. state ≡ with_argument callee word.now) }
{
    match callee {
        Callee::Event(event) => Ok(event_argument(event, part_in(word))),
        Callee::Test(nest, test) => match test {
            TestWord::Active => active_argument(alloc, nest, part_in(word)),
            TestWord::Fired => fired_argument(alloc, nest, name_in(alloc, word)?),
            TestWord::Count => Ok(left_argument(nest, part_in(word))),
        },
        Callee::Right(nest, left, op) => right_argument(alloc, nest, left, op, part_in(word)),
        Callee::Act(rule, action) => Ok(action_argument(rule, action, part_in(word))),
    }
}

fn event_argument(event: EventWord, part: Option<Name>) -> Option<State>
    ensures { result ≡ event_argument event part }
{
    let name = part?;
    match event {
        EventWord::Opened => {
            if is_opened(name) {
                Some(State::CloseDue(Phrase::Event(Event::Opened(name))))
            } else {
                None
            }
        }
        EventWord::Closed => Some(State::CloseDue(Phrase::Event(Event::Closed(name)))),
        EventWord::Error => match name {
            Name::Member(member) => Some(State::CloseDue(Phrase::Event(Event::Error(member)))),
            _ => None,
        },
        EventWord::Timeout => match name {
            Name::Member(member) => Some(State::CommaDue(Pending::Timeout(member))),
            _ => None,
        },
        EventWord::Threshold => {
            if is_counted(name) {
                Some(State::CommaDue(Pending::Threshold(name)))
            } else {
                None
            }
        }
        EventWord::OutOfMemory => match name {
            Name::Join(join) => Some(State::CloseDue(Phrase::Event(Event::OutOfMemory(join)))),
            _ => None,
        },
    }
}

fn active_argument(
    alloc: Global,
    nest: Boxed<Nest>,
    part: Option<Name>,
) -> Result<Option<State>, AllocError>
    ensures { IfOk result (λ state. state ≡ active_argument nest part) }
{
    match part {
        Some(Name::Member(member)) => {
            let test = Boxed::new(alloc, Condition::Active(member))?;
            Ok(Some(State::CloseDue(Phrase::Test(nest, test))))
        }
        _ => Ok(None),
    }
}

fn fired_argument(
    alloc: Global,
    nest: Boxed<Nest>,
    rule: Option<Text>,
) -> Result<Option<State>, AllocError>
    ensures { IfOk result (λ state. state ≡ fired_argument nest rule) }
{
    match rule {
        Some(rule) => {
            let test = Boxed::new(alloc, Condition::Fired(rule))?;
            Ok(Some(State::CloseDue(Phrase::Test(nest, test))))
        }
        None => Ok(None),
    }
}

fn left_argument(nest: Boxed<Nest>, part: Option<Name>) -> Option<State>
    ensures { result ≡ left_argument nest part }
{
    let name = part?;
    if is_counted(name) {
        Some(State::CloseDue(Phrase::Left(nest, Amount::Count(name))))
    } else {
        None
    }
}

fn right_argument(
    alloc: Global,
    nest: Boxed<Nest>,
    left: Amount,
    op: NumberOp,
    part: Option<Name>,
) -> Result<Option<State>, AllocError>
    ensures { IfOk result (λ state. state ≡ right_argument nest left op part) }
{
    match part {
        None => Ok(None),
        Some(name) => {
            if is_counted(name) {
                let test = Condition::Compares(left, op, Amount::Count(name));
                let test = Boxed::new(alloc, test)?;
                Ok(Some(State::CloseDue(Phrase::Test(nest, test))))
            } else {
                Ok(None)
            }
        }
    }
}

fn action_argument(rule: Boxed<Rule>, action: ActionWord, part: Option<Name>) -> Option<State>
    ensures { result ≡ action_argument rule action part }
{
    let name = part?;
    match action {
        ActionWord::Activate => match name {
            Name::Member(member) => {
                let action = Action::Activate(member);
                Some(State::CloseDue(Phrase::Act(rule, action)))
            }
            _ => None,
        },
        ActionWord::Deactivate => match name {
            Name::Member(member) => {
                let action = Action::Deactivate(member);
                Some(State::CloseDue(Phrase::Act(rule, action)))
            }
            _ => None,
        },
        ActionWord::Method => match name {
            Name::Join(join) => Some(State::CommaDue(Pending::Method(rule, join))),
            _ => None,
        },
        ActionWord::Quota => match name {
            Name::Join(join) => Some(State::CommaDue(Pending::Quota(rule, join))),
            _ => None,
        },
    }
}

/// The call, with a number as its second argument.
pub fn with_number(pending: Pending, number: u64) -> Option<Phrase>
    ensures { result ≡ with_number pending number }
{
    match pending {
        Pending::Timeout(member) => Some(Phrase::Event(Event::Timeout(member, number))),
        Pending::Threshold(name) => Some(Phrase::Event(Event::Threshold(name, number))),
        Pending::Quota(rule, join) => Some(Phrase::Act(rule, Action::Quota(join, number))),
        Pending::Method(..) => None,
    }
}

/// The call, with a method as its second argument.
pub fn with_method(pending: Pending, method: Method) -> Option<Phrase>
    ensures { result ≡ with_method pending method }
{
    match pending {
        Pending::Method(rule, join) => Some(Phrase::Act(rule, Action::Method(join, method))),
        _ => None,
    }
}

pub fn with_action(
    alloc: Global,
    rule: Boxed<Rule>,
    action: Action,
) -> Result<Boxed<Rule>, AllocError>
    ensures { IfOk result (λ longer. longer ≡ with_action rule action) }
{
    let mut rule = rule.into_inner();
    rule.actions.push(action)?;
    Ok(Boxed::new(alloc, rule)?)
}

/// The state after a test.
pub fn tested(alloc: Global, nest: Boxed<Nest>, test: Boxed<Condition>) -> Result<State, AllocError>
    ensures { IfOk result (λ state. state ≡ TestRead (with_test nest test)) }
{
    let read = with_test(alloc, nest.into_inner(), test)?;
    Ok(State::TestRead(Boxed::new(alloc, read)?))
}

/// What a call leads to with its closing parenthesis.
pub fn closed(alloc: Global, phrase: Phrase) -> Result<State, AllocError>
    ensures { IfOk result (λ state. state ≡ closed phrase) }
{
    match phrase {
        Phrase::Event(event) => Ok(State::EventRead(event)),
        Phrase::Test(nest, test) => tested(alloc, nest, test),
        Phrase::Left(nest, left) => Ok(State::OpDue(nest, left)),
        Phrase::Act(rule, action) => Ok(State::ActionRead(with_action(alloc, rule, action)?)),
    }
}
