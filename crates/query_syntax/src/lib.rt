//! Queries as they are written: from a text to its parts, or to the one offset where the text goes wrong.
//!
//! `read_syntax` reads a whole text as a `Syntax`: the query's name and its head, each a `Word`, and its body, a list
//! of `Part`s. A part is a `WrittenAtom` or a `WrittenComparison`, over `WrittenTerm`s: a variable's name or a
//! constant, with the offset of its first byte. No catalogue is known here: relations, kinds and the limits of a
//! query are the business of `query_reader`. A refusal tells the offset alone.
//!
//! `grammar_is_exact` has no code. Its clauses are the law that what is read is spelled so, and that a refusal is at
//! the first token with which no query can go on.
//!
//! Definitions:
//! - `specs/Grammar.antt`: how a query is spelled, and where tokens break the grammar;
//! - `specs/Tokens.antt`: the tokens of a text, with their offsets;
//! - `specs/Machine.antt`: the grammar as a machine that takes one token after the other;
//! - `specs/Reading.antt`: `syntax_of`, what is read of a text.
#![tactic(auto)]

mod laws;
mod machine;
mod reading;
mod syntax;
#[cfg(test)]
mod tests;
mod token;

pub use laws::grammar_is_exact;
pub use reading::read_syntax;
pub use syntax::{NamedTerm, Part, Syntax, Word, WrittenAtom, WrittenComparison, WrittenTerm};
