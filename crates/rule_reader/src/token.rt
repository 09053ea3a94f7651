//! The tokens of a rule's text.

ghost use Rattle.std.specs.Prelude.{◌≡◌, ◌≤◌, length, IfOk};
ghost use Rattle.rule_reader.specs.Tokens.{begins_space, continues_word, ends_space, is_space, mark_at, number_told, operator_at, sign_at, token_at, word_run};

use crate::rule::NumberOp;
use med_prelude::{Listed, continues_name, starts_name};
use std::alloc::{AllocError, Global};
use text_reading::digit_run;

/// The greatest number that may stand in a rule.
pub const MOST_NUMBER: u64 = 1 << 60;

/// A token.
#[derive(Drop)]
pub enum Token {
    /// A letter and the letters, digits, `_` and dots after it.
    Word(Listed<u8>),
    /// What digits write, or one past the greatest number of a rule for any greater one.
    Number(u64),
    Compares(NumberOp),
    Open,
    Close,
    Comma,
    /// Bytes that are no token. Only contracts speak of it.
    Junk,
}

/// The number that digits write, or one past the greatest, where they write a greater one.
pub fn number_told(digits: &[u8]) -> u64
    ensures { result ≡ number_told digits.now }
{
    let mut number = 0u64;
    for digit in digits {
        number = (number * 10 + u64::from(digit.saturating_sub(b'0'))).min(MOST_NUMBER + 1);
    }
    number
}

pub fn is_space(byte: u8) -> bool
    ensures { result ≡ is_space byte }
{
    byte == b' '
}

pub fn begins_space(text: &[u8]) -> bool
    ensures { result ≡ begins_space text.now }
{
    match text.first() {
        Some(byte) => is_space(*byte),
        None => false,
    }
}

pub fn ends_space(text: &[u8]) -> bool
    ensures { result ≡ ends_space text.now }
{
    match text.last() {
        Some(byte) => is_space(*byte),
        None => false,
    }
}

/// The token that bytes begin with, and its length.
pub fn token_at(alloc: Global, bytes: &[u8]) -> Result<Option<(Token, usize)>, AllocError>
    ensures { IfOk result (λ read. read ≡ token_at bytes.now) }
{
    match bytes.first() {
        None => Ok(None),
        Some(first) => {
            if starts_name(*first) {
                let len = word_run(bytes);
                let word = Vec::from_slice(alloc, &bytes[..len])?;
                Ok(Some((Token::Word(Listed::from_vec(word)), len)))
            } else if first.is_ascii_digit() {
                let len = digit_run(bytes);
                Ok(Some((Token::Number(number_told(&bytes[..len])), len)))
            } else {
                Ok(sign_at(bytes))
            }
        }
    }
}

fn continues_word(byte: u8) -> bool
    ensures { result ≡ continues_word byte }
{
    continues_name(byte) || byte == b'.'
}

/// How many bytes that continue a word the bytes begin with.
#[tactic(auto, using(text_reading::proofs::RunLaws::run_within))]
fn word_run(bytes: &[u8]) -> usize
    ensures value { result ≡ word_run bytes.now }
    ensures within { result ≤ length bytes.now }
{
    bytes
        .iter()
        .take_while(|byte| continues_word(**byte))
        .count()
}

fn sign_at(bytes: &[u8]) -> Option<(Token, usize)>
    ensures { result ≡ sign_at bytes.now }
{
    match operator_at(bytes) {
        Some((op, len)) => Some((Token::Compares(op), len)),
        None => mark_at(bytes),
    }
}

fn operator_at(bytes: &[u8]) -> Option<(NumberOp, usize)>
    ensures { result ≡ operator_at bytes.now }
{
    match bytes {
        [b'=', ..] => Some((NumberOp::Eq, 1)),
        [b'!', b'=', ..] => Some((NumberOp::Ne, 2)),
        [b'<', b'=', ..] => Some((NumberOp::Le, 2)),
        [b'<', ..] => Some((NumberOp::Lt, 1)),
        [b'>', b'=', ..] => Some((NumberOp::Ge, 2)),
        [b'>', ..] => Some((NumberOp::Gt, 1)),
        _ => None,
    }
}

fn mark_at(bytes: &[u8]) -> Option<(Token, usize)>
    ensures { result ≡ mark_at bytes.now }
{
    match bytes {
        [b'(', ..] => Some((Token::Open, 1)),
        [b')', ..] => Some((Token::Close, 1)),
        [b',', ..] => Some((Token::Comma, 1)),
        _ => None,
    }
}
