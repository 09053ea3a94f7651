//! The reader of a query's text.

ghost use Rattle.query_reader.specs.Fitting.{FitsCatalogue};
ghost use Rattle.query_reader.specs.Parts.{pieces_of};
ghost use Rattle.query_reader.specs.Reading.{GivesQuery, checked_query, query_of};
ghost use Rattle.std.specs.Prelude.{◌≡◌, ◌<◌, ◌^◌, length, IfOk};

use crate::checks::first_broken;
use crate::lowering::query_of_pieces;
use crate::pieces::Pieces;
use crate::relations::Directory;
use cat_reader::Catalogue;
use med_prelude::ReadFault;
use query_core::Query;
use query_syntax::{Syntax, read_syntax};
use std::alloc::{AllocError, Global};
use thiserror::Error;

/// The most bytes of a query's text.
pub const LONGEST_QUERY: usize = 1_048_576;

/// Why a text gave no query.
#[derive(Clone, Copy, Debug, PartialEq, Eq, Error)]
pub enum QueryFault {
    /// `why` is the number of the first check that is broken, `at` the offset in the text, in bytes.
    #[error("the query is refused: check {why}, at {at}")]
    Refused { why: u8, at: u64 },
    #[error("out of memory")]
    NoMemory,
}

impl From<AllocError> for QueryFault {
    ghost use Rattle.query_reader.specs.declared.reading.QueryFault.TheVariants.{NoMemory};

    ghost from_gives = { λ _ fault. fault ≡ NoMemory };

    fn from(_: AllocError) -> QueryFault {
        QueryFault::NoMemory
    }
}

/// A text that breaks the grammar breaks the first check.
impl From<ReadFault<u64>> for QueryFault {
    ghost use Rattle.query_reader.specs.Reading.{IsGrammarFault};

    ghost from_gives = { IsGrammarFault };

    fn from(fault: ReadFault<u64>) -> QueryFault {
        match fault {
            ReadFault::Broken(at) => QueryFault::Refused { why: 1, at },
            ReadFault::NoMemory => QueryFault::NoMemory,
        }
    }
}

/// Reads a query over a catalogue as a whole, or tells the first check that its text breaks, with the least offset
/// where it does. A catalogue that `read_catalogue` accepts has at most 256 relations.
#[tactic(auto, using(crate::proofs::FittingLaws::accepted_fits))]
pub fn read_query(alloc: Global, text: &[u8], catalogue: &Catalogue) -> Result<Query, QueryFault>
    requires few { length catalogue.now < 2 ^ 32 }
    ensures reads { GivesQuery result (query_of text.now catalogue.now) }
    ensures fits { IfOk result (λ query. FitsCatalogue catalogue.now query) }
{
    query_in_text(alloc, text, catalogue)
}

fn query_in_text(alloc: Global, text: &[u8], catalogue: &Catalogue) -> Result<Query, QueryFault>
    requires few { length catalogue.now < 2 ^ 32 }
    ensures { GivesQuery result (query_of text.now catalogue.now) }
{
    if text.len() > LONGEST_QUERY {
        return Err(QueryFault::Refused {
            why: 7,
            at: LONGEST_QUERY as u64,
        });
    }
    let syntax = read_syntax(alloc, text)?;
    checked_query(alloc, catalogue, &syntax)
}

/// The query, unless a check is broken.
fn checked_query(alloc: Global, catalogue: &Catalogue, syntax: &Syntax) -> Result<Query, QueryFault>
    requires few { length catalogue.now < 2 ^ 32 }
    ensures { GivesQuery result (checked_query catalogue.now (pieces_of syntax.now)) }
{
    let directory = Directory::new(alloc, catalogue)?;
    let pieces = Pieces::new(alloc, syntax)?;
    match first_broken(alloc, &directory, &pieces)? {
        Some(broken) => Err(QueryFault::Refused {
            why: broken.why,
            at: broken.at,
        }),
        None => Ok(query_of_pieces(alloc, &directory, &pieces)?),
    }
}
