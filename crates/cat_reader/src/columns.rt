//! The columns of a relation: a name, a colon and a kind each.

ghost use Rattle.cat_reader.specs.Forms.{is_no_column};
ghost use Rattle.cat_reader.specs.Relations.{colon, column_in, column_of, kind_of};
ghost use Rattle.std.specs.List.{filter_map};
ghost use Rattle.std.specs.Path.{rsplit_once};
ghost use Rattle.std.specs.Prelude.{◌≡◌, map, option_map, IfOk};
ghost use Rattle.toml.specs.View.{view};

use med_prelude::{Listed, Text};
use std::alloc::{AllocError, Global};
use toml::Value;
use tuple_core::{Column, Columns, Kind};

#[tactic(auto, unfolding(crate::specs::Relations::kind_of))]
fn kind_of(word: &str) -> Option<Kind>
    ensures { result ≡ kind_of word.now }
{
    match word {
        "int" => Some(Kind::Int),
        "text" => Some(Kind::Text),
        "bool" => Some(Kind::Bool),
        _ => None,
    }
}

/// What stands before the last colon, and after it.
fn parts_of(text: &str) -> Option<(&str, &str)>
    ensures { option_map (λ parts. (parts.0.now, parts.1.now)) result ≡ rsplit_once colon text.now }
{
    text.rsplit_once(':')
}

/// The name and the kind of a column, from its text.
fn named_kind(text: &str) -> Option<(&str, Kind)>
    ensures { option_map (λ parts. record { name = parts.0.now; kind = parts.1 }) result ≡ column_of text.now }
{
    let (name, word) = parts_of(text)?;
    if name.is_empty() {
        return None;
    }
    match kind_of(word) {
        Some(kind) => Some((name, kind)),
        None => None,
    }
}

#[tactic(auto, unfolding(crate::specs::Relations::column_in))]
fn column_parts(value: &Value) -> Option<(&str, Kind)>
    ensures { option_map (λ parts. record { name = parts.0.now; kind = parts.1 }) result ≡ column_in (view value.now) }
{
    match value.as_str() {
        Some(text) => named_kind(text),
        None => None,
    }
}

/// Whether the value isn't the text of a column.
pub fn is_no_column(value: &Value) -> bool
    ensures { result ≡ is_no_column (view value.now) }
{
    column_parts(value).is_none()
}

fn column_in(alloc: Global, value: &Value) -> Result<Option<Column>, AllocError>
    ensures { IfOk result (λ column. column ≡ column_in (view value.now)) }
{
    match column_parts(value) {
        Some((name, kind)) => {
            let name = Text::from_str(alloc, name)?;
            Ok(Some(Column { name, kind }))
        }
        None => Ok(None),
    }
}

/// The columns that the values say.
pub fn read_columns(alloc: Global, values: &[Value]) -> Result<Columns, AllocError>
    ensures { IfOk result (λ columns. columns ≡ filter_map column_in (map view values.now)) }
{
    let mut columns = Listed::new(alloc);
    for value in values {
        if let Some(column) = column_in(alloc, value)? {
            columns.push(column)?;
        }
    }
    Ok(columns)
}
