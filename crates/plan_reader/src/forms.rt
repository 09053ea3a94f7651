//! The check of forms: each entry is known, of its kind and of its form, what must be there is there, and the names of
//! fragments and of rules differ.

ghost use Rattle.std.specs.Prelude.{◌≡◌, is_none, nat_le, not, IfOk};
ghost use Rattle.toml.specs.Data.{as_table};
ghost use Rattle.toml.specs.View.{table_view};
ghost use Rattle.text_reading.specs.Order.{least};
ghost use Rattle.toml_tables.specs.Tables.{has_only, values_of};
ghost use Rattle.plan_reader.specs.Entries.{given};
ghost use Rattle.plan_reader.specs.Forms.{has_no_list, has_no_number, has_no_word, is_no_number, is_own_misformed, misformed_fragments, misformed_rules, plan_keys, where_misformed};
ghost use Rattle.plan_reader.specs.Items.{missing};
ghost use Rattle.plan_reader.specs.Locations.{is_up_to};
ghost use Rattle.plan_reader.specs.Parts.{parts_of};

use crate::doubled::first_doubled;
use crate::entries::given_at;
use crate::fragments::{WrittenFragment, fragment_names};
use crate::items::first_missing;
use crate::location::{Location, located};
use crate::parts::Parts;
use crate::plan::{Policy, Replan, WrittenRule};
use crate::settings::rule_names;
use med_base::Part;
use rule_reader::Method;
use std::alloc::{AllocError, Global};
use text_reading::{broken_if, lesser};
use toml::Table;
use toml_tables::{has_only, value_at, values_of};

fn is_no_number(document: &Table, key: &str) -> bool
    ensures { result ≡ is_no_number key.now (table_view document.now) }
{
    given_at::<u64>(document, key).is_none()
}

#[tactic(auto, unfolding(crate::specs::Forms::has_no_number))]
fn has_no_number(document: &Table) -> bool
    ensures { result ≡ has_no_number (table_view document.now) }
{
    is_no_number(document, "buckets")
        || is_no_number(document, "memory")
        || is_no_number(document, "spill_limit")
        || is_no_number(document, "idle_limit")
}

#[tactic(auto, unfolding(crate::specs::Forms::has_no_word))]
fn has_no_word(document: &Table) -> bool
    ensures { result ≡ has_no_word (table_view document.now) }
{
    given_at::<Method>(document, "method").is_none()
        || given_at::<Policy>(document, "policy").is_none()
        || given_at::<Replan>(document, "replan").is_none()
}

/// Something else than a list stands at the key.
fn is_no_list(document: &Table, key: &str) -> bool
    ensures { result ≡ is_none (given values_of key.now (table_view document.now)) }
{
    match value_at(document, key) {
        Some(value) => values_of(value).is_none(),
        None => false,
    }
}

/// Something else than a table stands at the key.
fn is_no_table(document: &Table, key: &str) -> bool
    ensures { result ≡ is_none (given as_table key.now (table_view document.now)) }
{
    match value_at(document, key) {
        Some(value) => value.as_table().is_none(),
        None => false,
    }
}

#[tactic(auto, unfolding(crate::specs::Forms::has_no_list))]
fn has_no_list(document: &Table) -> bool
    ensures { result ≡ has_no_list (table_view document.now) }
{
    is_no_list(document, "fragment")
        || is_no_list(document, "rule")
        || is_no_table(document, "join")
        || is_no_table(document, "group")
}

fn has_unknown(document: &Table) -> bool
    ensures { result ≡ not (has_only plan_keys (table_view document.now)) }
{
    let known = [
        "buckets",
        "memory",
        "method",
        "spill_limit",
        "idle_limit",
        "policy",
        "replan",
        "fragment",
        "join",
        "group",
        "rule",
    ];
    !has_only(document, known.as_slice())
}

#[tactic(auto, unfolding(crate::specs::Forms::is_own_misformed))]
fn is_own_misformed(document: &Table) -> bool
    ensures { result ≡ is_own_misformed (table_view document.now) }
{
    has_unknown(document)
        || has_no_number(document)
        || has_no_word(document)
        || has_no_list(document)
}

/// The least index of a fragment that isn't of its form, or has the name of an earlier one.
#[tactic(auto, using(crate::proofs::FormLaws::least_fragment))]
fn misformed_fragment(
    alloc: Global,
    fragments: &[Option<WrittenFragment>],
) -> Result<Option<usize>, AllocError>
    ensures { IfOk result (λ index. index ≡ least nat_le (misformed_fragments fragments.now)) }
{
    let names = fragment_names(alloc, fragments)?;
    let doubled = first_doubled(alloc, names.as_slice())?;
    Ok(lesser(first_missing(fragments), doubled))
}

/// The least index of a rule that isn't of its form, or has the name of an earlier one.
fn misformed_rule(alloc: Global, rules: &[Option<WrittenRule>]) -> Result<Option<usize>, AllocError>
    ensures { IfOk result (λ index. index ≡ least nat_le (misformed_rules rules.now)) }
{
    let names = rule_names(alloc, rules)?;
    let doubled = first_doubled(alloc, names.as_slice())?;
    Ok(lesser(first_missing(rules), doubled))
}

/// The least location of what isn't of its form.
#[tactic(auto, using(crate::proofs::FormLaws::least_misformed))]
pub fn misformed_location(
    alloc: Global,
    document: &Table,
    parts: &Parts,
) -> Result<Option<Location>, AllocError>
    requires { parts.now ≡ parts_of (table_view document.now) }
    ensures { IfOk result (λ found. found ≡ least is_up_to (where_misformed (table_view document.now))) }
{
    let own = broken_if(is_own_misformed(document), 0);
    let fragment = misformed_fragment(alloc, parts.fragments.as_slice())?;
    let join = first_missing(parts.joins.as_slice());
    let group = first_missing(parts.groups.as_slice());
    let rule = misformed_rule(alloc, parts.rules.as_slice())?;
    let found = lesser(located(Part::Plan, own), located(Part::Fragment, fragment));
    let found = lesser(found, located(Part::Join, join));
    let found = lesser(found, located(Part::Group, group));
    Ok(lesser(found, located(Part::Rule, rule)))
}
