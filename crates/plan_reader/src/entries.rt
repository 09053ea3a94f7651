//! What a table of a plan has at its keys.

ghost use Rattle.std.specs.Prelude.{◌≡◌, map, option_and_then, option_map, IfOk};
ghost use Rattle.toml.specs.Data.{as_table, get_member};
ghost use Rattle.toml.specs.View.{table_view, view};
ghost use Rattle.plan_reader.specs.Entries.{entries_at, entries_of, entry_seen, given, settled, values_at};
ghost use Rattle.plan_reader.specs.Words.{method_of, number_of, policy_of, replan_of};

use crate::plan::{Policy, Replan};
use crate::words::{method_in, policy_in, replan_in, told_number};
use rule_reader::Method;
use std::alloc::{AllocError, Global};
use toml::{Table, Value};
use toml_tables::{array_at, value_at};

/// A key of a table with its value.
#[derive(Clone, Copy)]
pub struct Entry<'a> {
    pub key: &'a str,
    pub value: &'a Value,
}

/// The entries of a table, in the order of their keys' bytes.
fn entries_of(alloc: Global, table: &Table) -> Result<Vec<Entry<'_>>, AllocError>
    ensures { IfOk result (λ entries. map entry_seen entries.items ≡ entries_of (table_view table.now)) }
{
    let mut entries = Vec::new(alloc);
    for (key, value) in table.iter() {
        entries.push(Entry {
            key: key.as_str(),
            value,
        })?;
    }
    Ok(entries)
}

/// The entries of the table at a key; none where no table stands there.
pub fn entries_at<'a>(
    alloc: Global,
    table: &'a Table,
    key: &str,
) -> Result<Vec<Entry<'a>>, AllocError>
    ensures { IfOk result (λ entries. map entry_seen entries.items ≡ entries_at key.now (table_view table.now)) }
{
    match table_at(table, key) {
        Some(inner) => entries_of(alloc, inner),
        None => Ok(Vec::new(alloc)),
    }
}

fn table_at<'a>(table: &'a Table, key: &str) -> Option<&'a Table>
    ensures { option_map (λ t. table_view t.now) result ≡ option_and_then as_table (get_member key.now (table_view table.now)) }
{
    match value_at(table, key) {
        Some(value) => value.as_table(),
        None => None,
    }
}

/// The values of the array at a key; none where no array stands there.
pub fn values_at<'a>(table: &'a Table, key: &str) -> &'a [Value]
    ensures { map view result.now ≡ values_at key.now (table_view table.now) }
{
    match array_at(table, key) {
        Some(values) => values,
        None => &[],
    }
}

/// What a value can be read as.
pub trait Given: Sized {
    ghost use Rattle.std.specs.Prelude.{Option};
    ghost use Rattle.toml.specs.Data.{Data};

    ghost read_as: { Data → Option Self };

    fn read(value: &Value) -> Option<Self>
        ensures { result ≡ read_as (view value.now) };
}

impl Given for u64 {
    ghost read_as = { number_of };

    #[tactic(auto, unfolding(crate::specs::Words::number_of))]
    fn read(value: &Value) -> Option<u64> {
        match value.as_integer() {
            Some(number) => Some(told_number(number)),
            None => None,
        }
    }
}

impl Given for Method {
    ghost read_as = { method_of };

    #[tactic(auto, unfolding(crate::specs::Words::method_of))]
    fn read(value: &Value) -> Option<Method> {
        match value.as_str() {
            Some(word) => method_in(word),
            None => None,
        }
    }
}

impl Given for Policy {
    ghost read_as = { policy_of };

    #[tactic(auto, unfolding(crate::specs::Words::policy_of))]
    fn read(value: &Value) -> Option<Policy> {
        match value.as_str() {
            Some(word) => policy_in(word),
            None => None,
        }
    }
}

impl Given for Replan {
    ghost read_as = { replan_of };

    #[tactic(auto, unfolding(crate::specs::Words::replan_of))]
    fn read(value: &Value) -> Option<Replan> {
        match value.as_str() {
            Some(word) => replan_in(word),
            None => None,
        }
    }
}

/// What is read at a key, if anything stands there; none where what stands there can't be read so.
pub fn given_at<T: Given>(table: &Table, key: &str) -> Option<Option<T>>
    ensures { result ≡ given T.read_as key.now (table_view table.now) }
{
    match value_at(table, key) {
        None => Some(None),
        Some(value) => match T::read(value) {
            Some(read) => Some(Some(read)),
            None => None,
        },
    }
}

/// What was read at a key, or what stands for it.
pub fn settled<T: Drop>(otherwise: T, given: Option<Option<T>>) -> T
    ensures { result ≡ settled otherwise given }
{
    match given {
        Some(Some(read)) => read,
        Some(None) | None => otherwise,
    }
}
