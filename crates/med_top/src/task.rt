//! What the texts of a catalogue and of a query ask to be done.

ghost use Rattle.std.specs.Prelude.{◌≡◌, Ok, IfOk, IfErr};
ghost use Rattle.cat_reader.specs.Accepted.{KeepsLimits};
ghost use Rattle.cat_reader.specs.Catalogue.{catalogue_of};
ghost use Rattle.query_reader.specs.Fitting.{FitsCatalogue};
ghost use Rattle.query_reader.specs.Reading.{query_of};
ghost use Rattle.med_top.specs.Tasks.{FailsAsCatalogue, FailsAsTask, IsTaskOf, IsTaskWithin};

use crate::target::{Targets, targets_for};
use cat_reader::{Catalogue, CatalogueFault, read_catalogue};
use med_base::Status;
use query_core::Query;
use query_reader::{QueryFault, read_query};
use std::alloc::Global;

/// A query, and what is read for each of its atoms.
#[derive(Debug, Drop)]
pub struct Task {
    pub query: Query,
    pub targets: Targets,
}

/// The relations that the text of a catalogue spells.
pub fn catalogue_in(alloc: Global, text: &[u8]) -> Result<Catalogue, Status>
    ensures says { IfOk result (λ relations. catalogue_of text.now ≡ Ok relations) }
    ensures limits { IfOk result KeepsLimits }
    ensures fails { IfErr result (λ status. FailsAsCatalogue text.now status) }
{
    match read_catalogue(alloc, text) {
        Ok(catalogue) => Ok(catalogue),
        Err(
            CatalogueFault::Refused {
                why,
                relation,
                item,
            },
        ) => Err(Status::CatalogueRefused {
            why,
            relation,
            item,
        }),
        Err(CatalogueFault::NoMemory) => Err(Status::NoMemory),
    }
}

/// What the text of a query asks to be done with the catalogue's relations. A query that is refused comes before
/// mirrors that aren't built.
pub fn task_in(alloc: Global, relations: &Catalogue, text: &[u8]) -> Result<Task, Status>
    requires limits { KeepsLimits relations.now }
    ensures task { IfOk result (λ task. IsTaskOf relations.now text.now task) }
    ensures within { IfOk result IsTaskWithin }
    ensures fails { IfErr result (λ status. FailsAsTask relations.now text.now status) }
{
    let query = query_in(alloc, relations, text)?;
    match targets_for(alloc, relations.as_slice(), query.atoms.as_slice()) {
        Ok(Some(targets)) => Ok(Task { query, targets }),
        Ok(None) => Err(Status::NotBuilt { why: 4 }),
        Err(_) => Err(Status::NoMemory),
    }
}

fn query_in(alloc: Global, relations: &Catalogue, text: &[u8]) -> Result<Query, Status>
    requires limits { KeepsLimits relations.now }
    ensures query { IfOk result (λ query. query_of text.now relations.now ≡ Ok query) }
    ensures fits { IfOk result (λ query. FitsCatalogue relations.now query) }
    ensures fails { IfErr result (λ status. FailsAsTask relations.now text.now status) }
{
    match read_query(alloc, text, relations) {
        Ok(query) => Ok(query),
        Err(QueryFault::Refused { why, at }) => Err(Status::QueryRefused { why, at }),
        Err(QueryFault::NoMemory) => Err(Status::NoMemory),
    }
}
