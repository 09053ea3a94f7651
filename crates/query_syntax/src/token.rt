//! The tokens of a query's text.

ghost use Rattle.std.specs.Prelude.{◌≡◌, IfOk};
ghost use Rattle.tuple_core.specs.Parsing.{parsed_value};
ghost use Rattle.query_syntax.specs.Tokens.{constant_at, integer_at, mark_at, operator_at, sign_at, text_at, token_at, truth_in, word_at};

use crate::syntax::Word;
use med_prelude::starts_name;
use std::alloc::{AllocError, Global};
use text_reading::{begins_integer, integer_run, name_in, name_run, quoted_text};
use tuple_core::{Kind, Op, Value, parse_value};

/// A token. Names and constants have the offset of their first byte.
#[derive(Drop)]
pub enum Token {
    Name(Word),
    Constant(Value, u64),
    Compares(Op),
    Open,
    Close,
    Comma,
    /// The sign `:-`.
    If,
    Stop,
    /// Bytes that are no token. Only contracts speak of it.
    Junk,
}

/// The token that bytes at an offset begin with, and its length.
pub fn token_at(alloc: Global, at: u64, bytes: &[u8]) -> Result<Option<(Token, usize)>, AllocError>
    ensures { IfOk result (λ read. read ≡ token_at at bytes.now) }
{
    match bytes.split_first() {
        None => Ok(None),
        Some((first, after)) => {
            if starts_name(*first) {
                word_at(alloc, at, &bytes[..name_run(bytes)])
            } else if begins_integer(*first) {
                integer_at(alloc, at, &bytes[..integer_run(bytes)])
            } else if *first == b'"' {
                text_at(alloc, at, after)
            } else {
                Ok(sign_at(bytes))
            }
        }
    }
}

#[tactic(auto, unfolding(crate::specs::Tokens::truth_in))]
fn truth_in(alloc: Global, run: &[u8]) -> Result<Option<Value>, AllocError>
    ensures { IfOk result (λ value. value ≡ truth_in run.now) }
{
    parse_value(alloc, Kind::Bool, run)
}

/// A truth value or a name, from the whole run of letters, digits and `_`.
fn word_at(alloc: Global, at: u64, run: &[u8]) -> Result<Option<(Token, usize)>, AllocError>
    ensures { IfOk result (λ read. read ≡ word_at at run.now) }
{
    match truth_in(alloc, run)? {
        Some(value) => Ok(Some((Token::Constant(value, at), run.len()))),
        None => match name_in(alloc, run)? {
            Some(name) => Ok(Some((Token::Name(Word { name, at }), run.len()))),
            None => Ok(None),
        },
    }
}

/// The value of a kind that bytes spell, as a token of so many bytes.
fn constant_at(
    alloc: Global,
    kind: Kind,
    at: u64,
    bytes: &[u8],
    len: usize,
) -> Result<Option<(Token, usize)>, AllocError>
    ensures { IfOk result (λ read. read ≡ constant_at at len (parsed_value kind bytes.now)) }
{
    match parse_value(alloc, kind, bytes)? {
        Some(value) => Ok(Some((Token::Constant(value, at), len))),
        None => Ok(None),
    }
}

/// An integer, from the whole run of a minus and digits.
fn integer_at(alloc: Global, at: u64, run: &[u8]) -> Result<Option<(Token, usize)>, AllocError>
    ensures { IfOk result (λ read. read ≡ integer_at at run.now) }
{
    constant_at(alloc, Kind::Int, at, run, run.len())
}

/// A text, from the bytes behind its opening quote.
fn text_at(alloc: Global, at: u64, bytes: &[u8]) -> Result<Option<(Token, usize)>, AllocError>
    ensures { IfOk result (λ read. read ≡ text_at at bytes.now) }
{
    match quoted_text(alloc, bytes)? {
        None => Ok(None),
        Some((text, taken)) => constant_at(alloc, Kind::Text, at, text.as_slice(), taken + 1),
    }
}

fn sign_at(bytes: &[u8]) -> Option<(Token, usize)>
    ensures { result ≡ sign_at bytes.now }
{
    match operator_at(bytes) {
        Some((op, len)) => Some((Token::Compares(op), len)),
        None => mark_at(bytes),
    }
}

fn operator_at(bytes: &[u8]) -> Option<(Op, usize)>
    ensures { result ≡ operator_at bytes.now }
{
    match bytes {
        [b'=', ..] => Some((Op::Eq, 1)),
        [b'!', b'=', ..] => Some((Op::Ne, 2)),
        [b'<', b'=', ..] => Some((Op::Le, 2)),
        [b'<', ..] => Some((Op::Lt, 1)),
        [b'>', b'=', ..] => Some((Op::Ge, 2)),
        [b'>', ..] => Some((Op::Gt, 1)),
        _ => None,
    }
}

fn mark_at(bytes: &[u8]) -> Option<(Token, usize)>
    ensures { result ≡ mark_at bytes.now }
{
    match bytes {
        [b'(', ..] => Some((Token::Open, 1)),
        [b')', ..] => Some((Token::Close, 1)),
        [b',', ..] => Some((Token::Comma, 1)),
        [b'.', ..] => Some((Token::Stop, 1)),
        [b':', b'-', ..] => Some((Token::If, 2)),
        _ => None,
    }
}
