//! The words of the language.

ghost use Rattle.std.specs.Prelude.{◌≡◌};
ghost use Rattle.rule_reader.specs.Keywords.{action_word, event_word, keyword_in, method_word, plain_word, test_word};

use crate::rule::Method;

/// A word that an event begins with.
#[derive(Clone, Copy)]
pub enum EventWord {
    Opened,
    Closed,
    Error,
    Timeout,
    Threshold,
    OutOfMemory,
}

/// A word before parentheses that a test, or a side of a comparison, begins with.
#[derive(Clone, Copy)]
pub enum TestWord {
    Active,
    Fired,
    Count,
}

/// A word before parentheses that an action begins with.
#[derive(Clone, Copy)]
pub enum ActionWord {
    Activate,
    Deactivate,
    Method,
    Quota,
}

/// A word of the language.
#[derive(Clone, Copy)]
pub enum Keyword {
    When,
    If,
    Then,
    Or,
    And,
    Not,
    True,
    Replan,
    Stop,
    Begins(EventWord),
    Tests(TestWord),
    Acts(ActionWord),
    Sets(Method),
}

/// The word of the language that bytes are, where they are one.
#[tactic(auto, unfolding(crate::specs::Keywords::keyword_in))]
pub fn keyword_in(word: &[u8]) -> Option<Keyword>
    ensures { result ≡ keyword_in word.now }
{
    if let Some(key) = plain_word(word) {
        return Some(key);
    }
    if let Some(event) = event_word(word) {
        return Some(Keyword::Begins(event));
    }
    if let Some(test) = test_word(word) {
        return Some(Keyword::Tests(test));
    }
    if let Some(action) = action_word(word) {
        return Some(Keyword::Acts(action));
    }
    match method_word(word) {
        Some(method) => Some(Keyword::Sets(method)),
        None => None,
    }
}

#[tactic(auto, unfolding(crate::specs::Keywords::plain_word))]
fn plain_word(word: &[u8]) -> Option<Keyword>
    ensures { result ≡ plain_word word.now }
{
    if word == b"when".as_slice() {
        Some(Keyword::When)
    } else if word == b"if".as_slice() {
        Some(Keyword::If)
    } else if word == b"then".as_slice() {
        Some(Keyword::Then)
    } else if word == b"or".as_slice() {
        Some(Keyword::Or)
    } else if word == b"and".as_slice() {
        Some(Keyword::And)
    } else if word == b"not".as_slice() {
        Some(Keyword::Not)
    } else if word == b"true".as_slice() {
        Some(Keyword::True)
    } else if word == b"replan".as_slice() {
        Some(Keyword::Replan)
    } else if word == b"stop".as_slice() {
        Some(Keyword::Stop)
    } else {
        None
    }
}

#[tactic(auto, unfolding(crate::specs::Keywords::event_word))]
fn event_word(word: &[u8]) -> Option<EventWord>
    ensures { result ≡ event_word word.now }
{
    if word == b"opened".as_slice() {
        Some(EventWord::Opened)
    } else if word == b"closed".as_slice() {
        Some(EventWord::Closed)
    } else if word == b"error".as_slice() {
        Some(EventWord::Error)
    } else if word == b"timeout".as_slice() {
        Some(EventWord::Timeout)
    } else if word == b"threshold".as_slice() {
        Some(EventWord::Threshold)
    } else if word == b"out_of_memory".as_slice() {
        Some(EventWord::OutOfMemory)
    } else {
        None
    }
}

#[tactic(auto, unfolding(crate::specs::Keywords::test_word))]
fn test_word(word: &[u8]) -> Option<TestWord>
    ensures { result ≡ test_word word.now }
{
    if word == b"active".as_slice() {
        Some(TestWord::Active)
    } else if word == b"fired".as_slice() {
        Some(TestWord::Fired)
    } else if word == b"count".as_slice() {
        Some(TestWord::Count)
    } else {
        None
    }
}

#[tactic(auto, unfolding(crate::specs::Keywords::action_word))]
fn action_word(word: &[u8]) -> Option<ActionWord>
    ensures { result ≡ action_word word.now }
{
    if word == b"activate".as_slice() {
        Some(ActionWord::Activate)
    } else if word == b"deactivate".as_slice() {
        Some(ActionWord::Deactivate)
    } else if word == b"method".as_slice() {
        Some(ActionWord::Method)
    } else if word == b"quota".as_slice() {
        Some(ActionWord::Quota)
    } else {
        None
    }
}

#[tactic(auto, unfolding(crate::specs::Keywords::method_word))]
fn method_word(word: &[u8]) -> Option<Method>
    ensures { result ≡ method_word word.now }
{
    if word == b"left".as_slice() {
        Some(Method::Left)
    } else if word == b"symmetric".as_slice() {
        Some(Method::Symmetric)
    } else {
        None
    }
}
