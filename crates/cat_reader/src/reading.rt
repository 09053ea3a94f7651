//! The reader of a catalogue's text.

ghost use Rattle.cat_reader.specs.Accepted.{KeepsLimits};
ghost use Rattle.cat_reader.specs.Catalogue.{AnswersCatalogue, catalogue_of, checks_of, document_says, is_not_toml, of_no_relation, relation_checks, relations_of, unless_broken, why_of};
ghost use Rattle.cat_reader.specs.Locations.{is_up_to};
ghost use Rattle.med_prelude.specs.Texts.{Bytes};
ghost use Rattle.std.specs.Prelude.{◌≡◌, ◌==◌, Some, IfOk};
ghost use Rattle.text_reading.specs.Checks.{IsExact, first_broken};
ghost use Rattle.toml.specs.Parse.{parse_document};
ghost use Rattle.toml.specs.View.{table_view};

use crate::catalogue::{Catalogue, CatalogueFault, Relation};
use crate::doubled::doubled_location;
use crate::forms::{misformed_location, tables_of};
use crate::limits::{EmptyCheck, GroupCheck, limit_location};
use crate::locations::{Where, least_in_each};
use crate::relations::read_relations;
use med_prelude::Listed;
use std::alloc::{AllocError, Global};
use text_reading::{Broken, told_first};
use toml::Table;

/// The most bytes of a catalogue's text.
pub const LONGEST_CATALOGUE: usize = 1_048_576;

/// Reads a catalogue as a whole, or tells the first check that its text breaks, with the least location where
/// it does.
#[tactic(auto, using(crate::proofs::AcceptedLaws::accepted_within))]
pub fn read_catalogue(alloc: Global, text: &[u8]) -> Result<Catalogue, CatalogueFault>
    ensures reads { AnswersCatalogue result (catalogue_of text.now) }
    ensures limits { IfOk result KeepsLimits }
{
    read_text(alloc, text)
}

/// The law of the first check: it is told exactly of a text that has the size of a catalogue and isn't TOML.
#[tactic(auto, using(crate::proofs::WhyLaws::one_is_not_toml))]
pub fn first_check_is_toml()
    ensures { (text : Bytes) → (why_of (catalogue_of text) == 1) ≡ is_not_toml text }
{}

/// The law of refusals: what is told of a text is its first broken check, at a location that breaks it and is up to every
/// other one; and nothing is told exactly where all its checks are kept.
#[tactic(auto, using(crate::proofs::RefusalLaws::exact))]
pub fn least_fault_is_told()
    ensures { (text : Bytes) → IsExact is_up_to (checks_of text) (first_broken is_up_to (checks_of text)) }
{}

fn of_no_relation(why: u8) -> CatalogueFault
    ensures { result ≡ of_no_relation why }
{
    CatalogueFault::Refused {
        why,
        relation: 0,
        item: 0,
    }
}

#[tactic(auto, using(med_prelude::proofs::Utf8::utf8_test, med_prelude::proofs::Utf8::utf8_refuted))]
fn read_text(alloc: Global, text: &[u8]) -> Result<Catalogue, CatalogueFault>
    ensures { AnswersCatalogue result (catalogue_of text.now) }
{
    if text.len() > LONGEST_CATALOGUE {
        return Err(of_no_relation(4));
    }
    match str::from_utf8(text) {
        Ok(text) => read_toml(alloc, text),
        Err(_) => Err(of_no_relation(1)),
    }
}

fn read_toml(alloc: Global, text: &str) -> Result<Catalogue, CatalogueFault>
    ensures { AnswersCatalogue result (document_says (parse_document text.now)) }
{
    match toml::table_from_str(alloc, text) {
        Ok(document) => read_document(alloc, &document),
        Err(error) if error.is_memory() => Err(CatalogueFault::NoMemory),
        Err(_) => Err(of_no_relation(1)),
    }
}

fn read_document(alloc: Global, document: &Table) -> Result<Catalogue, CatalogueFault>
    ensures { AnswersCatalogue result (document_says (Some (table_view document.now))) }
{
    match misformed_location(alloc, document)? {
        Some(at) => Err(CatalogueFault::from(Broken { why: 2, at })),
        None => check(alloc, relations_of(alloc, document)?),
    }
}

#[tactic(auto, unfolding(crate::specs::Catalogue::relations_of))]
fn relations_of(alloc: Global, document: &Table) -> Result<Catalogue, AllocError>
    ensures { IfOk result (λ relations. relations ≡ relations_of (table_view document.now)) }
{
    match tables_of(document) {
        Some(tables) => read_relations(alloc, tables),
        None => Ok(Listed::new(alloc)),
    }
}

fn check(alloc: Global, relations: Catalogue) -> Result<Catalogue, CatalogueFault>
    ensures { AnswersCatalogue result (unless_broken (first_broken is_up_to (relation_checks relations)) relations) }
{
    match first_broken(alloc, relations.as_slice())? {
        Some(broken) => Err(CatalogueFault::from(broken)),
        None => Ok(relations),
    }
}

/// The first check that the relations break, at the least location that breaks it.
fn first_broken(alloc: Global, relations: &[Relation]) -> Result<Option<Broken<Where>>, AllocError>
    ensures { IfOk result (λ broken. broken ≡ first_broken is_up_to (relation_checks relations.now)) }
{
    let groupless = least_in_each::<Relation, GroupCheck>(alloc, relations)?;
    let empty = least_in_each::<Relation, EmptyCheck>(alloc, relations)?;
    let told = told_first(5, empty, told_first(6, groupless, None));
    let told = told_first(4, limit_location(alloc, relations)?, told);
    Ok(told_first(3, doubled_location(alloc, relations)?, told))
}
