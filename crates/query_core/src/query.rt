//! A conjunctive query, as plain lists.

use med_prelude::Listed;
use row_match::{Comparison, Term};
use row_pages::Rows;

/// A part of a query's body that asks for the rows of a relation.
#[derive(Debug, Drop)]
pub struct Atom {
    /// The index of the relation in the catalogue.
    pub relation: u32,
    /// A term for each column.
    pub terms: Listed<Term>,
}

/// A conjunctive query. Its variables are numbered in the order in which they first stand in the text.
#[derive(Debug, Drop)]
pub struct Query {
    pub head: Listed<u32>,
    pub atoms: Listed<Atom>,
    pub comparisons: Listed<Comparison>,
}

/// The rows that came for each atom.
pub type Arrivals = Listed<Rows>;
