//! What a query is, and what its answer is, over the rows that came for each of its atoms.
//!
//! [`Query`] has a head, atoms and comparisons; [`Arrivals`] has the rows that came for each atom. Engines
//! answer queries, readers make them; both stand on this crate, which has no code but types and laws.
//!
//! The definitions stand in `specs/Answers.antt`, over a head, a list of atoms and a list of comparisons, since
//! the parts that a query is cut into have other atoms than the query: `agrees`, `choices`, `heads` and `answer`;
//! `answer_of` and `answer_text` speak of a whole query. Worked joins stand in `proofs/Examples.antt`.
//!
//! The laws, each the contract of a function that does nothing: [`one_answer`], what an answer is, and that
//! only one list is so; [`heads_of_solutions`], how heads come from the solutions of the theory of answers;
//! [`same_values_answer`], that rows with the same values give the same answer, in whatever order they came; and
//! [`atoms_give_leaves`], what an atom gives to joins.
#![tactic(auto)]

mod laws;
mod query;

pub use laws::{atoms_give_leaves, heads_of_solutions, one_answer, same_values_answer};
pub use query::{Arrivals, Atom, Query};
pub use row_match::{Comparison, Term};
