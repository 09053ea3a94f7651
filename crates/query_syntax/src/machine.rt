//! The grammar of queries as a machine that takes one token after the other.

ghost use Rattle.std.specs.Prelude.{◌≡◌, IfOk};
ghost use Rattle.query_syntax.specs.Machine.{comparison_part, constant_term, finished_query, step, variable_term, with_part, with_term, with_variable};
ghost use Rattle.query_syntax.specs.declared.machine.State.TheVariants.{Start, Named, HeadStart, HeadEnd, HeadClosed, PartStart, PartNamed, TermStart, TermEnd, Compared, PartEnd};

use crate::syntax::{NamedTerm, Part, Syntax, Word, WrittenAtom, WrittenComparison, WrittenTerm};
use crate::token::Token;
use med_prelude::Listed;
use std::alloc::{AllocError, Global};
use tuple_core::{Op, Value};

/// What stands before `:-`, as far as it was read.
#[derive(Drop)]
pub struct Head {
    pub name: Word,
    pub variables: Listed<Word>,
}

/// A head and the parts that were read.
#[derive(Drop)]
pub struct Body {
    pub head: Head,
    pub parts: Listed<Part>,
}

/// What was read, and so what may come.
#[derive(Drop)]
pub enum State {
    /// Nothing; the query's name comes.
    Start,
    /// The query's name; `(` comes.
    Named(Word),
    /// `(` or a comma; a variable of the head comes.
    HeadStart(Head),
    /// A variable of the head; a comma or `)` comes.
    HeadEnd(Head),
    /// `)` of the head; `:-` comes.
    HeadClosed(Head),
    /// `:-` or a comma; a part comes.
    PartStart(Body),
    /// The first name of a part; `(` or an operator comes.
    PartNamed(Body, Word),
    /// `(` or a comma of an atom; a term comes.
    TermStart(Body, WrittenAtom),
    /// A term of an atom; a comma or `)` comes.
    TermEnd(Body, WrittenAtom),
    /// A name and an operator; a term comes.
    Compared(Body, Word, Op),
    /// A part; a comma or the full stop comes.
    PartEnd(Body),
    /// The full stop; nothing comes.
    Done(Syntax),
}

/// What a token leads to, where the grammar allows it.
pub fn step(alloc: Global, state: State, token: Token) -> Result<Option<State>, AllocError>
    ensures { IfOk result (λ next. next ≡ step state token) }
{
    match state {
        State::Start => Ok(after_nothing(token)),
        State::Named(name) => Ok(after_name(alloc, name, token)),
        State::HeadStart(head) => head_variable(head, token),
        State::HeadEnd(head) => Ok(after_variable(head, token)),
        State::HeadClosed(head) => Ok(after_head(alloc, head, token)),
        State::PartStart(body) => Ok(part_name(body, token)),
        State::PartNamed(body, name) => Ok(after_part_name(alloc, body, name, token)),
        State::TermStart(body, atom) => atom_term(body, atom, token),
        State::TermEnd(body, atom) => after_term(body, atom, token),
        State::Compared(body, left, op) => right_side(body, left, op, token),
        State::PartEnd(body) => Ok(after_part(body, token)),
        State::Done(_) => Ok(None),
    }
}

/// The query, once its full stop was read.
pub fn finished_query(state: State) -> Option<Syntax>
    ensures { result ≡ finished_query state }
{
    match state {
        State::Done(syntax) => Some(syntax),
        _ => None,
    }
}

fn after_nothing(token: Token) -> Option<State>
    ensures { result ≡ step Start token }
{
    match token {
        Token::Name(name) => Some(State::Named(name)),
        _ => None,
    }
}

fn after_name(alloc: Global, name: Word, token: Token) -> Option<State>
    ensures { result ≡ step (Named name) token }
{
    match token {
        Token::Open => Some(State::HeadStart(Head {
            name,
            variables: Listed::new(alloc),
        })),
        _ => None,
    }
}

fn head_variable(head: Head, token: Token) -> Result<Option<State>, AllocError>
    ensures { IfOk result (λ next. next ≡ step (HeadStart head) token) }
{
    match token {
        Token::Name(variable) => Ok(Some(State::HeadEnd(with_variable(head, variable)?))),
        _ => Ok(None),
    }
}

fn after_variable(head: Head, token: Token) -> Option<State>
    ensures { result ≡ step (HeadEnd head) token }
{
    match token {
        Token::Comma => Some(State::HeadStart(head)),
        Token::Close => Some(State::HeadClosed(head)),
        _ => None,
    }
}

fn after_head(alloc: Global, head: Head, token: Token) -> Option<State>
    ensures { result ≡ step (HeadClosed head) token }
{
    match token {
        Token::If => Some(State::PartStart(Body {
            head,
            parts: Listed::new(alloc),
        })),
        _ => None,
    }
}

fn part_name(body: Body, token: Token) -> Option<State>
    ensures { result ≡ step (PartStart body) token }
{
    match token {
        Token::Name(name) => Some(State::PartNamed(body, name)),
        _ => None,
    }
}

fn after_part_name(alloc: Global, body: Body, name: Word, token: Token) -> Option<State>
    ensures { result ≡ step (PartNamed body name) token }
{
    match token {
        Token::Open => {
            let atom = WrittenAtom {
                relation: name,
                terms: Listed::new(alloc),
            };
            Some(State::TermStart(body, atom))
        }
        Token::Compares(op) => Some(State::Compared(body, name, op)),
        _ => None,
    }
}

fn atom_term(body: Body, atom: WrittenAtom, token: Token) -> Result<Option<State>, AllocError>
    ensures { IfOk result (λ next. next ≡ step (TermStart body atom) token) }
{
    match token {
        Token::Name(name) => Ok(Some(State::TermEnd(body, with_term(atom, variable_term(name))?))),
        Token::Constant(value, at) => {
            let atom = with_term(atom, constant_term(value, at))?;
            Ok(Some(State::TermEnd(body, atom)))
        }
        _ => Ok(None),
    }
}

fn after_term(body: Body, atom: WrittenAtom, token: Token) -> Result<Option<State>, AllocError>
    ensures { IfOk result (λ next. next ≡ step (TermEnd body atom) token) }
{
    match token {
        Token::Comma => Ok(Some(State::TermStart(body, atom))),
        Token::Close => Ok(Some(State::PartEnd(with_part(body, Part::Atom(atom))?))),
        _ => Ok(None),
    }
}

fn right_side(body: Body, left: Word, op: Op, token: Token) -> Result<Option<State>, AllocError>
    ensures { IfOk result (λ next. next ≡ step (Compared body left op) token) }
{
    match token {
        Token::Name(name) => Ok(Some(with_comparison(body, left, op, variable_term(name))?)),
        Token::Constant(value, at) => Ok(Some(with_comparison(
            body,
            left,
            op,
            constant_term(value, at),
        )?)),
        _ => Ok(None),
    }
}

fn after_part(body: Body, token: Token) -> Option<State>
    ensures { result ≡ step (PartEnd body) token }
{
    match token {
        Token::Comma => Some(State::PartStart(body)),
        Token::Stop => Some(State::Done(Syntax {
            name: body.head.name,
            head: body.head.variables,
            parts: body.parts,
        })),
        _ => None,
    }
}

fn variable_term(name: Word) -> WrittenTerm
    ensures { result ≡ variable_term name }
{
    WrittenTerm {
        written: NamedTerm::Variable(name.name),
        at: name.at,
    }
}

fn constant_term(value: Value, at: u64) -> WrittenTerm
    ensures { result ≡ constant_term value at }
{
    WrittenTerm {
        written: NamedTerm::Constant(value),
        at,
    }
}

fn with_comparison(body: Body, left: Word, op: Op, right: WrittenTerm) -> Result<State, AllocError>
    ensures { IfOk result (λ next. next ≡ PartEnd (with_part body (comparison_part left op right))) }
{
    let comparison = WrittenComparison { left, op, right };
    Ok(State::PartEnd(with_part(body, Part::Comparison(comparison))?))
}

fn with_variable(head: Head, variable: Word) -> Result<Head, AllocError>
    ensures { IfOk result (λ longer. longer ≡ with_variable head variable) }
{
    let mut head = head;
    head.variables.push(variable)?;
    Ok(head)
}

fn with_term(atom: WrittenAtom, term: WrittenTerm) -> Result<WrittenAtom, AllocError>
    ensures { IfOk result (λ longer. longer ≡ with_term atom term) }
{
    let mut atom = atom;
    atom.terms.push(term)?;
    Ok(atom)
}

fn with_part(body: Body, part: Part) -> Result<Body, AllocError>
    ensures { IfOk result (λ longer. longer ≡ with_part body part) }
{
    let mut body = body;
    body.parts.push(part)?;
    Ok(body)
}
