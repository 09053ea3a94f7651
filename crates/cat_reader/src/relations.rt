//! A relation, from its table.

ghost use Rattle.cat_reader.specs.Relations.{name_of, relation_in, relation_of, rows_of, values_at};
ghost use Rattle.std.specs.List.{filter_map};
ghost use Rattle.std.specs.Prelude.{◌≡◌, map, option_copied, IfOk};
ghost use Rattle.toml.specs.View.{table_view, view};

use crate::catalogue::{Catalogue, Relation};
use crate::columns::read_columns;
use crate::groups::read_groups;
use med_prelude::{Listed, Text, is_name};
use std::alloc::{AllocError, Global};
use toml::{Table, Value};
use toml_tables::{array_at, text_at, value_at};

/// The estimate where none is given.
const DEFAULT_ROWS: i64 = 1000;

/// The table's name, where there is one and it is a name.
pub fn name_of(table: &Table) -> Option<&str>
    ensures { option_copied result ≡ name_of (table_view table.now) }
{
    match text_at(table, "name") {
        Some(text) if is_name(text.as_bytes()) => Some(text),
        Some(_) | None => None,
    }
}

/// The table's estimate, where it is an integer or none is given.
pub fn rows_of(table: &Table) -> Option<i64>
    ensures { result ≡ rows_of (table_view table.now) }
{
    match value_at(table, "rows") {
        Some(value) => value.as_integer(),
        None => Some(DEFAULT_ROWS),
    }
}

/// The values of the array at a key; none where there is no array.
pub fn values_at<'a>(table: &'a Table, key: &str) -> &'a [Value]
    ensures { map view result.now ≡ values_at key.now (table_view table.now) }
{
    match array_at(table, key) {
        Some(values) => values,
        None => &[],
    }
}

/// The relation of a table that has a name and an estimate.
fn relation_of(alloc: Global, table: &Table) -> Result<Option<Relation>, AllocError>
    ensures { IfOk result (λ relation. relation ≡ relation_of (table_view table.now)) }
{
    let Some(name) = name_of(table) else {
        return Ok(None);
    };
    let Some(rows) = rows_of(table) else {
        return Ok(None);
    };
    Ok(Some(Relation {
        name: Text::from_str(alloc, name)?,
        columns: read_columns(alloc, values_at(table, "columns"))?,
        groups: read_groups(alloc, values_at(table, "groups"))?,
        rows,
    }))
}

#[tactic(auto, unfolding(crate::specs::Relations::relation_in))]
fn relation_in(alloc: Global, value: &Value) -> Result<Option<Relation>, AllocError>
    ensures { IfOk result (λ relation. relation ≡ relation_in (view value.now)) }
{
    match value.as_table() {
        Some(table) => relation_of(alloc, table),
        None => Ok(None),
    }
}

/// The relations that the tables say.
pub fn read_relations(alloc: Global, tables: &[Value]) -> Result<Catalogue, AllocError>
    ensures { IfOk result (λ relations. relations ≡ filter_map relation_in (map view tables.now)) }
{
    let mut relations = Listed::new(alloc);
    for table in tables {
        if let Some(relation) = relation_in(alloc, table)? {
            relations.push(relation)?;
        }
    }
    Ok(relations)
}
