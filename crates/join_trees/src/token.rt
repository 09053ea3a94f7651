//! The tokens of a tree's text.

ghost use Rattle.std.specs.Prelude.{◌≡◌};
ghost use Rattle.join_trees.specs.Tokens.{is_padded, mark_token, of_length, part_token, token_at, word_token};

use crate::tree::Leaf;
use med_base::Name;
use med_prelude::starts_name;
use rule_reader::{begins_space, ends_space, part_in};
use text_reading::name_run;

/// A token.
#[derive(Clone, Copy)]
pub enum Token {
    Leaf(Leaf),
    Join(u32),
    Open,
    Close,
    Comma,
    /// Bytes that are no token. Only contracts speak of it.
    Junk,
}

/// The token of a part of a plan.
fn part_token(part: Name) -> Option<Token>
    ensures { result ≡ part_token part }
{
    match part {
        Name::Member(_) => None,
        Name::Atom(atom) => Some(Token::Leaf(Leaf::Atom(atom))),
        Name::Fragment(fragment) => Some(Token::Leaf(Leaf::Fragment(fragment))),
        Name::Join(join) => Some(Token::Join(join)),
    }
}

fn word_token(word: &[u8]) -> Option<Token>
    ensures { result ≡ word_token word.now }
{
    match part_in(word) {
        Some(part) => part_token(part),
        None => None,
    }
}

fn mark_token(byte: u8) -> Option<Token>
    ensures { result ≡ mark_token byte }
{
    match byte {
        b'(' => Some(Token::Open),
        b')' => Some(Token::Close),
        b',' => Some(Token::Comma),
        _ => None,
    }
}

fn of_length(len: usize, token: Option<Token>) -> Option<(Token, usize)>
    ensures { result ≡ of_length len token }
{
    match token {
        Some(token) => Some((token, len)),
        None => None,
    }
}

/// The token that bytes begin with, and its length.
pub fn token_at(bytes: &[u8]) -> Option<(Token, usize)>
    ensures { result ≡ token_at bytes.now }
{
    match bytes.first() {
        None => None,
        Some(first) => {
            if starts_name(*first) {
                let len = name_run(bytes);
                of_length(len, word_token(&bytes[..len]))
            } else {
                of_length(1, mark_token(*first))
            }
        }
    }
}

/// Whether a space stands in front of the text or at its end.
pub fn is_padded(text: &[u8]) -> bool
    ensures { result ≡ is_padded text.now }
{
    begins_space(text) || ends_space(text)
}
