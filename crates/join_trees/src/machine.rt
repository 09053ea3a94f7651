//! The grammar of trees as a machine that takes one token after the other.

ghost use Rattle.std.specs.Prelude.{◌≡◌, option_map, IfOk};
ghost use Rattle.join_trees.specs.Machine.{finished_tree, start, state, step, step_in};
ghost use Rattle.join_trees.specs.Shapes.{joined};
ghost use Rattle.join_trees.specs.declared.machine.Phase.TheVariants.{Read};
ghost use Rattle.join_trees.specs.declared.token.Token.TheVariants as token;

use crate::stack::{OpenJoin, OpenJoins, Stack};
use crate::token::Token;
use crate::tree::{Leaf, Tree};
use std::alloc::{AllocError, Global};

/// What comes next.
#[derive(Clone, Copy, Debug, PartialEq, Eq)]
pub enum Phase {
    /// A tree.
    Due,
    /// The parenthesis behind a join's name.
    Named(u32),
    /// A comma, a closing parenthesis or nothing: a tree was read.
    Read,
}

/// What was read.
#[derive(Drop)]
pub struct State {
    pub phase: Phase,
    pub open_joins: OpenJoins,
    pub trees: Stack,
}

pub fn start(alloc: Global) -> State
    ensures { result ≡ start }
{
    State {
        phase: Phase::Due,
        open_joins: OpenJoins::new(alloc),
        trees: Stack::new(alloc),
    }
}

/// What a token leads to, where the grammar allows it.
pub fn step(state: State, token: Token) -> Result<Option<State>, AllocError>
    ensures { IfOk result (λ next. next ≡ step state token) }
{
    match token {
        Token::Leaf(leaf) => after_leaf(state, leaf),
        Token::Join(join) => Ok(after_join(state, join)),
        Token::Open => after_open(state),
        Token::Close => after_close(state),
        Token::Comma => after_comma(state),
        Token::Junk => Ok(None),
    }
}

fn after_leaf(state: State, leaf: Leaf) -> Result<Option<State>, AllocError>
    ensures { IfOk result (λ next. next ≡ step state (token.Leaf leaf)) }
{
    match state.phase {
        Phase::Due => {
            let mut trees = state.trees;
            trees.push_leaf(leaf)?;
            Ok(Some(State {
                phase: Phase::Read,
                open_joins: state.open_joins,
                trees,
            }))
        }
        Phase::Named(_) | Phase::Read => Ok(None),
    }
}

fn after_join(state: State, join: u32) -> Option<State>
    ensures { result ≡ step state (token.Join join) }
{
    match state.phase {
        Phase::Due => Some(State {
            phase: Phase::Named(join),
            open_joins: state.open_joins,
            trees: state.trees,
        }),
        Phase::Named(_) | Phase::Read => None,
    }
}

fn after_open(state: State) -> Result<Option<State>, AllocError>
    ensures { IfOk result (λ next. next ≡ step state token.Open) }
{
    match state.phase {
        Phase::Named(join) => {
            let mut open_joins = state.open_joins;
            open_joins.push(OpenJoin {
                join,
                has_left: false,
            })?;
            Ok(Some(State {
                phase: Phase::Due,
                open_joins,
                trees: state.trees,
            }))
        }
        Phase::Due | Phase::Read => Ok(None),
    }
}

fn after_comma(state: State) -> Result<Option<State>, AllocError>
    ensures { IfOk result (λ next. next ≡ step state token.Comma) }
{
    match state.phase {
        Phase::Read => part(state.open_joins, state.trees),
        Phase::Due | Phase::Named(_) => Ok(None),
    }
}

/// The left tree of the innermost join was read.
fn part(open_joins: OpenJoins, trees: Stack) -> Result<Option<State>, AllocError>
    ensures { IfOk result (λ next. next ≡ step_in Read open_joins trees token.Comma) }
{
    let mut open_joins = open_joins;
    match open_joins.pop() {
        None => Ok(None),
        Some(opened) => {
            if opened.has_left {
                return Ok(None);
            }
            open_joins.push(OpenJoin {
                join: opened.join,
                has_left: true,
            })?;
            Ok(Some(State {
                phase: Phase::Due,
                open_joins,
                trees,
            }))
        }
    }
}

fn after_close(state: State) -> Result<Option<State>, AllocError>
    ensures { IfOk result (λ next. next ≡ step state token.Close) }
{
    match state.phase {
        Phase::Read => close(state.open_joins, state.trees),
        Phase::Due | Phase::Named(_) => Ok(None),
    }
}

/// The innermost join is closed, where both its trees were read.
fn close(open_joins: OpenJoins, trees: Stack) -> Result<Option<State>, AllocError>
    ensures { IfOk result (λ next. next ≡ step_in Read open_joins trees token.Close) }
{
    let mut open_joins = open_joins;
    match open_joins.pop() {
        None => Ok(None),
        Some(opened) => {
            if opened.has_left {
                join(open_joins, trees, opened.join)
            } else {
                Ok(None)
            }
        }
    }
}

fn join(open_joins: OpenJoins, trees: Stack, join: u32) -> Result<Option<State>, AllocError>
    ensures { IfOk result (λ next. next ≡ option_map (state Read open_joins) (joined join trees)) }
{
    let mut trees = trees;
    if trees.join(join)? {
        Ok(Some(State {
            phase: Phase::Read,
            open_joins,
            trees,
        }))
    } else {
        Ok(None)
    }
}

/// The tree, where all joins are closed.
pub fn finished_tree(state: State) -> Option<Tree>
    ensures { result ≡ finished_tree state }
{
    match state.phase {
        Phase::Read => {
            if state.open_joins.is_empty() {
                state.trees.into_tree()
            } else {
                None
            }
        }
        Phase::Due | Phase::Named(_) => None,
    }
}
