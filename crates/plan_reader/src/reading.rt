//! The reader of a plan's text.

ghost use Rattle.med_prelude.specs.Texts.{Bytes};
ghost use Rattle.plan_reader.specs.Faults.{fault_of};
ghost use Rattle.plan_reader.specs.Locations.{is_up_to};
ghost use Rattle.plan_reader.specs.Parts.{parts_of, plan_in};
ghost use Rattle.plan_reader.specs.Reading.{AnswersPlan, checks_of, document_says, of_whole, plan_checks, plan_of, refusal, says, unless_broken};
ghost use Rattle.std.specs.Prelude.{◌≡◌, option_map};
ghost use Rattle.text_reading.specs.Checks.{IsExact, first_broken};
ghost use Rattle.toml.specs.Parse.{parse_document};
ghost use Rattle.toml.specs.View.{table_view};

use crate::forms::misformed_location;
use crate::fragments::fragments_read;
use crate::items::present;
use crate::limits::{limit_location, treeless_location};
use crate::location::Location;
use crate::parts::{Parts, plan_with, read_parts};
use crate::plan::{Plan, PlanFault};
use med_base::Part;
use std::alloc::Global;
use text_reading::Broken;
use toml::Table;

/// The most bytes of a plan's text.
pub const LONGEST_PLAN: usize = 1_048_576;

/// Reads a plan as a whole, or tells the first check that its text breaks, with the least part and item that break it.
#[tactic(auto, using(med_prelude::proofs::Utf8::utf8_test, med_prelude::proofs::Utf8::utf8_refuted))]
pub fn read_plan(alloc: Global, text: &[u8]) -> Result<Plan, PlanFault>
    ensures { AnswersPlan result (plan_of text.now) }
{
    if text.len() > LONGEST_PLAN {
        return Err(of_whole(11));
    }
    match str::from_utf8(text) {
        Ok(text) => read_toml(alloc, text),
        Err(_) => Err(of_whole(1)),
    }
}

/// The law of refusals: what is told of a text is its first broken check, at a location that breaks it and is up to every
/// other one; and nothing is told exactly where all its checks are kept.
#[tactic(auto, using(crate::proofs::RefusalLaws::exact, crate::proofs::RefusalLaws::told))]
pub fn least_fault_is_told()
    ensures exact { (text : Bytes) → IsExact is_up_to (checks_of text) (first_broken is_up_to (checks_of text)) }
    ensures told { (text : Bytes) → refusal (plan_of text) ≡ option_map fault_of (first_broken is_up_to (checks_of text)) }
{}

fn of_whole(why: u8) -> PlanFault
    ensures { result ≡ of_whole why }
{
    PlanFault::Refused {
        why,
        part: Part::Plan,
        item: 0,
    }
}

fn read_toml(alloc: Global, text: &str) -> Result<Plan, PlanFault>
    ensures { AnswersPlan result (says (parse_document text.now)) }
{
    match toml::table_from_str(alloc, text) {
        Ok(document) => read_document(alloc, &document),
        Err(error) if error.is_memory() => Err(PlanFault::NoMemory),
        Err(_) => Err(of_whole(1)),
    }
}

fn read_document(alloc: Global, document: &Table) -> Result<Plan, PlanFault>
    ensures { AnswersPlan result (document_says (table_view document.now)) }
{
    let parts = read_parts(alloc, document)?;
    match misformed_location(alloc, document, &parts)? {
        Some(at) => Err(PlanFault::from(Broken { why: 2, at })),
        None => read_formed(alloc, document, parts),
    }
}

/// What a document says whose entries have their forms.
fn read_formed(alloc: Global, document: &Table, parts: Parts) -> Result<Plan, PlanFault>
    requires { parts ≡ parts_of (table_view document.now) }
    ensures { AnswersPlan result (unless_broken (first_broken is_up_to (plan_checks (table_view document.now))) (plan_in (table_view document.now))) }
{
    let Parts {
        fragments,
        joins,
        groups,
        rules,
    } = parts;
    let written = present(alloc, fragments)?;
    if let Some(at) = treeless_location(alloc, written.as_slice())? {
        return Err(PlanFault::from(Broken { why: 3, at }));
    }
    let fragments = fragments_read(alloc, written)?;
    let plan = plan_with(alloc, document, joins, groups, rules, fragments)?;
    match limit_location(&plan) {
        Some(at) => Err(PlanFault::from(Broken { why: 11, at })),
        None => Ok(plan),
    }
}
