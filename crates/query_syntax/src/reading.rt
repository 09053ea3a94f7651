//! The reader of a query's grammar.

ghost use Rattle.std.specs.Prelude.{◌≡◌, length, IfOk};
ghost use Rattle.med_prelude.specs.Reading.{Gives};
ghost use Rattle.query_syntax.specs.Reading.{advance, syntax_from, syntax_of};
ghost use Rattle.query_syntax.specs.declared.machine.State.TheVariants.{Start};

use crate::machine::{State, finished_query, step};
use crate::syntax::Syntax;
use crate::token::token_at;
use med_prelude::ReadFault;
use std::alloc::{AllocError, Global};
use text_reading::{begins_blank, is_blank};

/// Reads the parts of a query, or tells the offset of the first token that can't continue any query, or the text's
/// length where the text ends too early.
pub fn read_syntax(alloc: Global, text: &[u8]) -> Result<Syntax, ReadFault<u64>>
    ensures { Gives result (syntax_of text.now) }
{
    if begins_blank(text) {
        return Err(ReadFault::Broken(0));
    }
    read_tokens(alloc, text)
}

fn read_tokens(alloc: Global, text: &[u8]) -> Result<Syntax, ReadFault<u64>>
    ensures { Gives result (syntax_from (length text.now) Start 0 text.now) }
{
    let mut state = State::Start;
    let mut rest = text;
    let mut at = 0u64;
    while let Some((first, after)) = rest.split_first() {
        if is_blank(*first) {
            rest = after;
            at += 1;
        } else {
            let Some((next, len)) = advance(alloc, state, at, rest)? else {
                return Err(ReadFault::Broken(at));
            };
            let (_, others) = rest.split_at(len);
            state = next;
            rest = others;
            at += len as u64;
        }
    }
    match finished_query(state) {
        Some(syntax) => Ok(syntax),
        None => Err(ReadFault::Broken(at)),
    }
}

/// The state after the token that bytes at an offset begin with, and the token's length.
fn advance(
    alloc: Global,
    state: State,
    at: u64,
    bytes: &[u8],
) -> Result<Option<(State, usize)>, AllocError>
    ensures { IfOk result (λ read. read ≡ advance state at bytes.now) }
{
    match token_at(alloc, at, bytes)? {
        None => Ok(None),
        Some((token, len)) => match step(alloc, state, token)? {
            None => Ok(None),
            Some(next) => Ok(Some((next, len))),
        },
    }
}
