//! Queries: from a text to a query over a catalogue, or to the first check that the text breaks and where.
//!
//! `read_query` reads a whole text: over `LONGEST_QUERY` bytes it is refused; `query_syntax` reads its parts; and the
//! checks of a query are made against the catalogue. A refusal is a `QueryFault`: the number of the first broken check,
//! with the least offset that breaks it. What is read is a `Query` of `query_core`, whose relations are positions in
//! the catalogue and whose variables are numbered as they come; it fits the catalogue.
//!
//! Inside, `Pieces` takes the parts of a query apart, `Directory` finds a relation and `Names` what is said of a name,
//! both by hashing, so each check is linear; `first_broken` puts the checks together, and `lowering` makes the query.
//!
//! Definitions:
//! - `specs/Reading.antt`: `query_of`, what a text says, and `GivesQuery`, what is answered;
//! - `specs/Checks.antt`: the checks, each with all offsets that break it, over `specs/Parts.antt` (the atoms, comparisons
//!   and variables of a query), `specs/Kinds.antt`, `specs/Mentions.antt` (the first of each name counts) and
//!   `specs/Directories.antt`;
//! - `specs/Limits.antt`: the limits of a query, as numbers;
//! - `specs/Fitting.antt`: `FitsCatalogue`, what an accepted query keeps to.
#![tactic(auto)]

mod checks;
mod kinds;
mod lowering;
mod mentions;
mod parts;
mod pieces;
mod reading;
mod relations;
#[cfg(test)]
mod tests;

pub use reading::{LONGEST_QUERY, QueryFault, read_query};
