//! The reader of a tree's text.

ghost use Rattle.std.specs.Prelude.{◌≡◌, IfOk};
ghost use Rattle.join_trees.specs.Machine.{advance, start, tree_from, tree_of};

use crate::machine::{State, finished_tree, start, step};
use crate::token::{is_padded, token_at};
use crate::tree::Tree;
use rule_reader::is_space;
use std::alloc::{AllocError, Global};

/// The tree that a text spells, where it spells one.
#[tactic(auto, unfolding(crate::specs::Machine::tree_of))]
pub fn read_tree(alloc: Global, text: &[u8]) -> Result<Option<Tree>, AllocError>
    ensures { IfOk result (λ tree. tree ≡ tree_of text.now) }
{
    if is_padded(text) {
        return Ok(None);
    }
    read_tokens(alloc, text)
}

fn read_tokens(alloc: Global, text: &[u8]) -> Result<Option<Tree>, AllocError>
    ensures { IfOk result (λ tree. tree ≡ tree_from start text.now) }
{
    let mut state = start(alloc);
    let mut rest = text;
    while let Some((first, after)) = rest.split_first() {
        if is_space(*first) {
            rest = after;
        } else {
            let Some((next, len)) = advance(state, rest)? else {
                return Ok(None);
            };
            let (_, others) = rest.split_at(len);
            state = next;
            rest = others;
        }
    }
    Ok(finished_tree(state))
}

/// The state after the token that bytes begin with, and the token's length.
fn advance(state: State, bytes: &[u8]) -> Result<Option<(State, usize)>, AllocError>
    ensures { IfOk result (λ read. read ≡ advance state bytes.now) }
{
    match token_at(bytes) {
        None => Ok(None),
        Some((token, len)) => match step(state, token)? {
            None => Ok(None),
            Some(next) => Ok(Some((next, len))),
        },
    }
}
