//! The check of forms: each entry is there, known, of its kind and of its form.

ghost use Rattle.cat_reader.specs.Forms.{is_no_column, is_no_group, is_own_misformed, is_table, misformed_columns, misformed_groups, misformed_in, misformed_items, some_tables, tables_of, where_misformed};
ghost use Rattle.cat_reader.specs.Locations.{is_up_to};
ghost use Rattle.std.specs.List.{list_all};
ghost use Rattle.std.specs.Prelude.{◌≡◌, map, nat_le, option_map, position, IfOk};
ghost use Rattle.text_reading.specs.Order.{least};
ghost use Rattle.toml.specs.View.{table_view, view};

use crate::columns::is_no_column;
use crate::groups::is_no_group;
use crate::locations::{ItemCheck, Where, least_in_each};
use crate::relations::{name_of, rows_of, values_at};
use std::alloc::{AllocError, Global};
use text_reading::{broken_if, lesser};
use toml::{Table, Value};
use toml_tables::{array_at, has_only};

fn is_own_misformed(table: &Table) -> bool
    ensures { result ≡ is_own_misformed (table_view table.now) }
{
    let known = ["name", "columns", "groups", "rows"];
    !has_only(table, known.as_slice()) || name_of(table).is_none() || rows_of(table).is_none()
}

fn first_no_column(values: &[Value]) -> Option<usize>
    ensures { result ≡ position (λ value. is_no_column (view value)) values.now }
{
    values.iter().position(|value| is_no_column(value))
}

fn first_no_group(values: &[Value]) -> Option<usize>
    ensures { result ≡ position (λ value. is_no_group (view value)) values.now }
{
    values.iter().position(|value| is_no_group(value))
}

/// The index of the first column that isn't one, or 0 where there is none at all.
fn misformed_column(table: &Table) -> Option<usize>
    ensures { result ≡ least nat_le (misformed_columns (table_view table.now)) }
{
    let values = values_at(table, "columns");
    lesser(broken_if(values.is_empty(), 0), first_no_column(values))
}

/// The index of the first group that isn't one, or 0 where there is no list of them.
fn misformed_group(table: &Table) -> Option<usize>
    ensures { result ≡ least nat_le (misformed_groups (table_view table.now)) }
{
    let is_none = array_at(table, "groups").is_none();
    lesser(
        broken_if(is_none, 0),
        first_no_group(values_at(table, "groups")),
    )
}

#[tactic(auto, using(crate::proofs::FormLaws::least_misformed))]
fn misformed_item(table: &Table) -> Option<usize>
    ensures { result ≡ least nat_le (misformed_items (table_view table.now)) }
{
    let own = broken_if(is_own_misformed(table), 0);
    lesser(lesser(own, misformed_column(table)), misformed_group(table))
}

/// The check of one relation's form.
struct FormCheck;

impl ItemCheck<Value> for FormCheck {
    ghost broken_in = { λ value. misformed_in (view value) };

    #[tactic(auto, unfolding(crate::specs::Forms::misformed_in))]
    fn least_broken(_: Global, value: &Value) -> Result<Option<usize>, AllocError> {
        match value.as_table() {
            Some(table) => Ok(misformed_item(table)),
            None => Ok(Some(0)),
        }
    }
}

fn are_tables(values: &[Value]) -> bool
    ensures { result ≡ list_all (λ value. is_table (view value)) values.now }
{
    values.iter().all(|value| value.is_table())
}

/// The values, if there are any and all are tables.
fn some_tables(values: &[Value]) -> Option<&[Value]>
    ensures { option_map (λ vs. map view vs.now) result ≡ some_tables (map view values.now) }
{
    if values.is_empty() {
        return None;
    }
    if are_tables(values) {
        Some(values)
    } else {
        None
    }
}

/// The tables of a document whose one key is `relation`.
#[tactic(auto, using(toml_tables::proofs::KeyLaws::count_keys))]
pub fn tables_of(document: &Table) -> Option<&[Value]>
    ensures { option_map (λ vs. map view vs.now) result ≡ tables_of (table_view document.now) }
{
    if document.len() != 1 {
        return None;
    }
    match array_at(document, "relation") {
        Some(values) => some_tables(values),
        None => None,
    }
}

/// The least location of what isn't of its form.
#[tactic(auto, using(crate::proofs::LocationLaws::in_each_map), unfolding(crate::specs::Forms::where_misformed))]
pub fn misformed_location(alloc: Global, document: &Table) -> Result<Option<Where>, AllocError>
    ensures { IfOk result (λ found. found ≡ least is_up_to (where_misformed (table_view document.now))) }
{
    match tables_of(document) {
        Some(tables) => least_in_each::<Value, FormCheck>(alloc, tables),
        None => Ok(Some(Where {
            relation: 0,
            item: 0,
        })),
    }
}
