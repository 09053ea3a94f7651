//! The grammar of rules as a machine that takes one token after the other.

ghost use Rattle.std.specs.Prelude.{◌≡◌, Err, if◌then◌else◌, IfOk};
ghost use Rattle.med_prelude.specs.Reading.{or_at};
ghost use Rattle.rule_reader.specs.Grammar.{rule_limits};
ghost use Rattle.rule_reader.specs.Machine.{after_key, is_deep_not, not_the_grammar, over_a_limit, told_step};
ghost use Rattle.rule_reader.specs.declared.state.State.TheVariants.{Start, EventDue, EventRead, SecondDue, TestDue, RightDue, TestRead, ActionDue};
ghost use Rattle.rule_reader.specs.declared.token.Token.TheVariants.{Word, Number, Compares, Open, Close, Comma};

use crate::calls::{closed, tested, with_action, with_argument, with_method, with_number};
use crate::keyword::{Keyword, TestWord, keyword_in};
use crate::nesting::{
    Nest, Tested, after_and, after_or, closed_group, first_nest, in_group, is_deepest, rule_head,
    under_not,
};
use crate::rule::{Action, Amount, Condition, Event, NumberOp, Rule};
use crate::state::{Callee, Pending, State};
use crate::token::{MOST_NUMBER, Token};
use sqlite_items::Boxed;
use std::alloc::{AllocError, Global};

/// The text isn't a rule.
pub const NOT_THE_GRAMMAR: u8 = 1;

/// The text is over a limit.
pub const OVER_A_LIMIT: u8 = 2;

/// What a token leads to, or why it is refused.
pub fn step(alloc: Global, state: State, token: Token) -> Result<Result<State, u8>, AllocError>
    ensures { IfOk result (λ told. told ≡ told_step state token) }
{
    match token {
        Token::Word(word) => after_word(alloc, state, word.as_slice()),
        Token::Number(number) => after_number(alloc, state, number),
        Token::Compares(op) => Ok(after_operator(state, op)),
        Token::Open => after_open(alloc, state),
        Token::Close => after_close(alloc, state),
        Token::Comma => Ok(after_comma(state)),
        Token::Junk => Ok(Err(NOT_THE_GRAMMAR)),
    }
}

/// What a state leads to, where the grammar has it.
fn or_refused(state: Option<State>) -> Result<State, u8>
    ensures { result ≡ or_at not_the_grammar state }
{
    match state {
        Some(state) => Ok(state),
        None => Err(NOT_THE_GRAMMAR),
    }
}

fn after_word(alloc: Global, state: State, word: &[u8]) -> Result<Result<State, u8>, AllocError>
    ensures { IfOk result (λ told. told ≡ told_step state (Word word.now)) }
{
    let key = keyword_in(word);
    match state {
        State::ArgumentDue(callee) => Ok(or_refused(with_argument(alloc, callee, word)?)),
        State::Start => Ok(or_refused(begun(key))),
        State::EventDue => Ok(or_refused(event_begun(key))),
        State::EventRead(event) => Ok(or_refused(condition_begun(alloc, event, key)?)),
        State::SecondDue(pending) => Ok(or_refused(method_read(pending, key))),
        State::TestDue(nest) => test_begun(alloc, nest, key),
        State::RightDue(nest, left, op) => Ok(or_refused(right_begun(nest, left, op, key))),
        State::TestRead(tested) => Ok(or_refused(test_joined(alloc, tested, key)?)),
        State::ActionDue(rule) => Ok(or_refused(action_begun(alloc, rule, key)?)),
        _ => Ok(Err(NOT_THE_GRAMMAR)),
    }
}

fn begun(key: Option<Keyword>) -> Option<State>
    ensures { result ≡ after_key Start key }
{
    match key {
        Some(Keyword::When) => Some(State::EventDue),
        _ => None,
    }
}

fn event_begun(key: Option<Keyword>) -> Option<State>
    ensures { result ≡ after_key EventDue key }
{
    match key {
        Some(Keyword::Begins(event)) => Some(State::Called(Callee::Event(event))),
        _ => None,
    }
}

fn condition_begun(
    alloc: Global,
    event: Event,
    key: Option<Keyword>,
) -> Result<Option<State>, AllocError>
    ensures { IfOk result (λ state. state ≡ after_key (EventRead event) key) }
{
    match key {
        Some(Keyword::If) => {
            let nest = Boxed::new(alloc, first_nest(alloc, event))?;
            Ok(Some(State::TestDue(nest)))
        }
        _ => Ok(None),
    }
}

fn method_read(pending: Pending, key: Option<Keyword>) -> Option<State>
    ensures { result ≡ after_key (SecondDue pending) key }
{
    match key {
        Some(Keyword::Sets(method)) => match with_method(pending, method) {
            Some(phrase) => Some(State::CloseDue(phrase)),
            None => None,
        },
        _ => None,
    }
}

fn test_begun(
    alloc: Global,
    nest: Boxed<Nest>,
    key: Option<Keyword>,
) -> Result<Result<State, u8>, AllocError>
    ensures { IfOk result (λ told. told ≡ (if is_deep_not rule_limits nest key then Err over_a_limit else or_at not_the_grammar (after_key (TestDue nest) key))) }
{
    match key {
        Some(Keyword::Not) => {
            if is_deepest(nest.get()) {
                Ok(Err(OVER_A_LIMIT))
            } else {
                let nest = Boxed::new(alloc, under_not(nest.into_inner()))?;
                Ok(Ok(State::TestDue(nest)))
            }
        }
        Some(Keyword::True) => {
            let test = Boxed::new(alloc, Condition::True)?;
            Ok(Ok(tested(alloc, nest, test)?))
        }
        Some(Keyword::Tests(test)) => Ok(Ok(State::Called(Callee::Test(nest, test)))),
        _ => Ok(Err(NOT_THE_GRAMMAR)),
    }
}

fn right_begun(nest: Boxed<Nest>, left: Amount, op: NumberOp, key: Option<Keyword>) -> Option<State>
    ensures { result ≡ after_key (RightDue nest left op) key }
{
    match key {
        Some(Keyword::Tests(TestWord::Count)) => {
            Some(State::Called(Callee::Right(nest, left, op)))
        }
        _ => None,
    }
}

fn test_joined(
    alloc: Global,
    tested: Boxed<Tested>,
    key: Option<Keyword>,
) -> Result<Option<State>, AllocError>
    ensures { IfOk result (λ state. state ≡ after_key (TestRead tested) key) }
{
    match key {
        Some(Keyword::And) => {
            let nest = Boxed::new(alloc, after_and(tested.into_inner()))?;
            Ok(Some(State::TestDue(nest)))
        }
        Some(Keyword::Or) => {
            let nest = after_or(alloc, tested.into_inner())?;
            Ok(Some(State::TestDue(Boxed::new(alloc, nest)?)))
        }
        Some(Keyword::Then) => match rule_head(alloc, tested.into_inner())? {
            Some(head) => Ok(Some(State::ActionDue(Boxed::new(alloc, head)?))),
            None => Ok(None),
        },
        _ => Ok(None),
    }
}

fn action_begun(
    alloc: Global,
    rule: Boxed<Rule>,
    key: Option<Keyword>,
) -> Result<Option<State>, AllocError>
    ensures { IfOk result (λ state. state ≡ after_key (ActionDue rule) key) }
{
    match key {
        Some(Keyword::Replan) => {
            let rule = with_action(alloc, rule, Action::Replan)?;
            Ok(Some(State::ActionRead(rule)))
        }
        Some(Keyword::Stop) => {
            let rule = with_action(alloc, rule, Action::Stop)?;
            Ok(Some(State::ActionRead(rule)))
        }
        Some(Keyword::Acts(action)) => Ok(Some(State::Called(Callee::Act(rule, action)))),
        _ => Ok(None),
    }
}

fn after_number(alloc: Global, state: State, number: u64) -> Result<Result<State, u8>, AllocError>
    ensures { IfOk result (λ told. told ≡ told_step state (Number number)) }
{
    match state {
        State::SecondDue(pending) => Ok(second_number(pending, number)),
        State::TestDue(nest) => {
            if number > MOST_NUMBER {
                Ok(Err(OVER_A_LIMIT))
            } else {
                Ok(Ok(State::OpDue(nest, Amount::Number(number))))
            }
        }
        State::RightDue(nest, left, op) => {
            if number > MOST_NUMBER {
                Ok(Err(OVER_A_LIMIT))
            } else {
                let test = Condition::Compares(left, op, Amount::Number(number));
                let test = Boxed::new(alloc, test)?;
                Ok(Ok(tested(alloc, nest, test)?))
            }
        }
        _ => Ok(Err(NOT_THE_GRAMMAR)),
    }
}

fn second_number(pending: Pending, number: u64) -> Result<State, u8>
    ensures { result ≡ told_step (SecondDue pending) (Number number) }
{
    match with_number(pending, number) {
        None => Err(NOT_THE_GRAMMAR),
        Some(phrase) => {
            if number > MOST_NUMBER {
                Err(OVER_A_LIMIT)
            } else {
                Ok(State::CloseDue(phrase))
            }
        }
    }
}

fn after_operator(state: State, op: NumberOp) -> Result<State, u8>
    ensures { result ≡ told_step state (Compares op) }
{
    match state {
        State::OpDue(nest, left) => Ok(State::RightDue(nest, left, op)),
        _ => Err(NOT_THE_GRAMMAR),
    }
}

fn after_open(alloc: Global, state: State) -> Result<Result<State, u8>, AllocError>
    ensures { IfOk result (λ told. told ≡ told_step state Open) }
{
    match state {
        State::Called(callee) => Ok(Ok(State::ArgumentDue(callee))),
        State::TestDue(nest) => {
            if is_deepest(nest.get()) {
                Ok(Err(OVER_A_LIMIT))
            } else {
                let nest = in_group(nest.into_inner())?;
                Ok(Ok(State::TestDue(Boxed::new(alloc, nest)?)))
            }
        }
        _ => Ok(Err(NOT_THE_GRAMMAR)),
    }
}

fn after_close(alloc: Global, state: State) -> Result<Result<State, u8>, AllocError>
    ensures { IfOk result (λ told. told ≡ told_step state Close) }
{
    match state {
        State::CloseDue(phrase) => Ok(Ok(closed(alloc, phrase)?)),
        State::TestRead(tested) => match closed_group(alloc, tested.into_inner())? {
            Some(tested) => Ok(Ok(State::TestRead(Boxed::new(alloc, tested)?))),
            None => Ok(Err(NOT_THE_GRAMMAR)),
        },
        _ => Ok(Err(NOT_THE_GRAMMAR)),
    }
}

fn after_comma(state: State) -> Result<State, u8>
    ensures { result ≡ told_step state Comma }
{
    match state {
        State::CommaDue(pending) => Ok(State::SecondDue(pending)),
        State::ActionRead(rule) => Ok(State::ActionDue(rule)),
        _ => Err(NOT_THE_GRAMMAR),
    }
}
