//! The reader of rules.

ghost use Rattle.std.specs.Prelude.{◌≡◌, [], length, IfOk};
ghost use Rattle.rule_reader.specs.Reading.{GivesRule, advance, rule_from, rule_of};
ghost use Rattle.rule_reader.specs.declared.state.State.TheVariants.{Start};

use crate::machine::{NOT_THE_GRAMMAR, OVER_A_LIMIT, step};
use crate::rule::Rule;
use crate::state::{State, finished_rule};
use crate::token::{begins_space, ends_space, is_space, token_at};
use std::alloc::{AllocError, Global};
use thiserror::Error;

/// The most bytes of a rule.
pub const LONGEST_RULE: usize = 4096;

/// Why a text gave no rule.
#[derive(Clone, Copy, Debug, PartialEq, Eq, Error)]
pub enum RuleFault {
    /// `why` is 1 where the text is no rule and 2 where it is over a limit, `at` the offset where that shows, in bytes.
    #[error("the rule is refused: check {why}, at {at}")]
    Refused { why: u8, at: u64 },
    #[error("out of memory")]
    NoMemory,
}

impl From<AllocError> for RuleFault {
    ghost use Rattle.rule_reader.specs.declared.reading.RuleFault.TheVariants.{NoMemory};

    ghost from_gives = { λ _ fault. fault ≡ NoMemory };

    fn from(_: AllocError) -> RuleFault {
        RuleFault::NoMemory
    }
}

/// Reads a rule as a whole, or tells why and where the text is refused: with `why` 1 at the first byte of the first
/// token, or of the first bytes that are no token, with which no rule can go on, or at the text's length where it ends
/// too early; with `why` 2 at the first token past a limit; whichever comes first. A text of more than 4,096 bytes is
/// refused with `why` 2 at 4,096, whatever it says.
pub fn read_rule(alloc: Global, text: &[u8]) -> Result<Rule, RuleFault>
    ensures { GivesRule result (rule_of text.now) }
{
    if text.len() > LONGEST_RULE {
        return Err(RuleFault::Refused {
            why: OVER_A_LIMIT,
            at: LONGEST_RULE as u64,
        });
    }
    if begins_space(text) {
        return Err(RuleFault::Refused {
            why: NOT_THE_GRAMMAR,
            at: 0,
        });
    }
    read_tokens(alloc, text)
}

fn read_tokens(alloc: Global, text: &[u8]) -> Result<Rule, RuleFault>
    ensures { GivesRule result (rule_from text.now Start 0 text.now) }
{
    let mut state = State::Start;
    let mut rest = text;
    let mut at = 0u64;
    while let Some((first, after)) = rest.split_first() {
        if is_space(*first) {
            rest = after;
            at += 1;
        } else {
            match advance(alloc, state, rest)? {
                Err(why) => return Err(RuleFault::Refused { why, at }),
                Ok((next, len)) => {
                    let (_, others) = rest.split_at(len);
                    state = next;
                    rest = others;
                    at += len as u64;
                }
            }
        }
    }
    finish(text, state)
}

/// What is read at the end of a text: the rule, where one is whole and no space stands behind it.
fn finish(text: &[u8], state: State) -> Result<Rule, RuleFault>
    ensures { GivesRule result (rule_from text.now state (length text.now) []) }
{
    let too_early = RuleFault::Refused {
        why: NOT_THE_GRAMMAR,
        at: text.len() as u64,
    };
    if ends_space(text) {
        return Err(too_early);
    }
    match finished_rule(state) {
        Some(rule) => Ok(rule),
        None => Err(too_early),
    }
}

/// The state after the token that bytes begin with and the token's length, or why it is refused.
fn advance(
    alloc: Global,
    state: State,
    bytes: &[u8],
) -> Result<Result<(State, usize), u8>, AllocError>
    ensures { IfOk result (λ read. read ≡ advance state bytes.now) }
{
    match token_at(alloc, bytes)? {
        None => Ok(Err(NOT_THE_GRAMMAR)),
        Some((token, len)) => match step(alloc, state, token)? {
            Err(why) => Ok(Err(why)),
            Ok(next) => Ok(Ok((next, len))),
        },
    }
}
