//! The parts of a query as they are written, each with the offset of its first byte in the text.

use med_prelude::{Listed, Text};
use tuple_core::{Op, Value};

/// A name.
#[derive(Debug, PartialEq, Eq, Drop)]
pub struct Word {
    pub name: Text,
    pub at: u64,
}

/// A term without its offset: the name of a variable, or a constant.
#[derive(Debug, PartialEq, Eq, Drop)]
pub enum NamedTerm {
    Variable(Text),
    Constant(Value),
}

/// A term.
#[derive(Debug, PartialEq, Eq, Drop)]
pub struct WrittenTerm {
    pub written: NamedTerm,
    pub at: u64,
}

/// An atom: `relation(term, ..)`.
#[derive(Debug, Drop)]
pub struct WrittenAtom {
    pub relation: Word,
    pub terms: Listed<WrittenTerm>,
}

/// A comparison: a variable's name, an operator and a term.
#[derive(Debug, Drop)]
pub struct WrittenComparison {
    pub left: Word,
    pub op: Op,
    pub right: WrittenTerm,
}

/// A part of a query's body.
#[derive(Debug, Drop)]
pub enum Part {
    Atom(WrittenAtom),
    Comparison(WrittenComparison),
}

/// A query: `name(head, ..) :- part, .. .`
#[derive(Debug, Drop)]
pub struct Syntax {
    pub name: Word,
    pub head: Listed<Word>,
    pub parts: Listed<Part>,
}
