//! The groups of a relation: the locations of each group's mirrors.

ghost use Rattle.cat_reader.specs.Forms.{is_no_group, is_string};
ghost use Rattle.cat_reader.specs.Relations.{group_in};
ghost use Rattle.std.specs.List.{filter_map, list_all};
ghost use Rattle.std.specs.Prelude.{◌≡◌, map, IfOk};
ghost use Rattle.toml.specs.Data.{as_str};
ghost use Rattle.toml.specs.View.{view};

use med_prelude::{Listed, Text};
use std::alloc::{AllocError, Global};
use toml::Value;
use toml_tables::values_of;
use tuple_core::Words;

fn are_strings(values: &[Value]) -> bool
    ensures { result ≡ list_all (λ value. is_string (view value)) values.now }
{
    values.iter().all(|value| value.is_str())
}

/// Whether the value isn't a list of texts.
pub fn is_no_group(value: &Value) -> bool
    ensures { result ≡ is_no_group (view value.now) }
{
    match values_of(value) {
        Some(values) => !are_strings(values),
        None => true,
    }
}

/// The texts among the values.
fn texts_of(alloc: Global, values: &[Value]) -> Result<Words, AllocError>
    ensures { IfOk result (λ texts. texts ≡ filter_map as_str (map view values.now)) }
{
    let mut texts = Listed::new(alloc);
    for value in values {
        if let Some(text) = value.as_str() {
            texts.push(Text::from_str(alloc, text)?)?;
        }
    }
    Ok(texts)
}

#[tactic(auto, unfolding(crate::specs::Relations::group_in))]
fn group_in(alloc: Global, value: &Value) -> Result<Words, AllocError>
    ensures { IfOk result (λ group. group ≡ group_in (view value.now)) }
{
    match values_of(value) {
        Some(values) => texts_of(alloc, values),
        None => Ok(Listed::new(alloc)),
    }
}

/// The groups that the values say.
pub fn read_groups(alloc: Global, values: &[Value]) -> Result<Listed<Words>, AllocError>
    ensures { IfOk result (λ groups. groups ≡ map group_in (map view values.now)) }
{
    let mut groups = Listed::new(alloc);
    for value in values {
        groups.push(group_in(alloc, value)?)?;
    }
    Ok(groups)
}
