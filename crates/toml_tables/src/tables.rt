//! What a TOML table holds, by key and by kind.

ghost use Rattle.std.specs.BTreeMap.{keys};
ghost use Rattle.std.specs.Cmp.Lexicographic.{pointwise};
ghost use Rattle.std.specs.List.{list_all, list_any};
ghost use Rattle.std.specs.Prelude.{◌≡◌, map, nat_eq, option_map, option_copied, string_bytes};
ghost use Rattle.toml.specs.Data.{get_member};
ghost use Rattle.toml.specs.View.{view, table_view};
ghost use Rattle.toml_tables.specs.Tables.{array_at, has_only, text_at, values_of};

use toml::{Table, Value};

/// The value at a key.
pub fn value_at<'a>(table: &'a Table, key: &str) -> Option<&'a Value>
    ensures { option_map (λ v. view v.now) result ≡ get_member key.now (table_view table.now) }
{
    table.get(key)
}

/// The string at a key: none also where another kind of value stands there.
pub fn text_at<'a>(table: &'a Table, key: &str) -> Option<&'a str>
    ensures { option_copied result ≡ text_at key.now (table_view table.now) }
{
    match value_at(table, key) {
        Some(value) => value.as_str(),
        None => None,
    }
}

/// The values of an array.
#[tactic(auto, using(crate::proofs::KeyLaws::listed))]
pub fn values_of(value: &Value) -> Option<&[Value]>
    ensures { option_map (λ vs. map view vs.now) result ≡ values_of (view value.now) }
{
    match value.as_array() {
        Some(values) => Some(values.as_slice()),
        None => None,
    }
}

/// The values of the array at a key: none also where another kind of value stands there.
pub fn array_at<'a>(table: &'a Table, key: &str) -> Option<&'a [Value]>
    ensures { option_map (λ vs. map view vs.now) result ≡ array_at key.now (table_view table.now) }
{
    match value_at(table, key) {
        Some(value) => values_of(value),
        None => None,
    }
}

fn is_among(known: &[&str], key: &str) -> bool
    ensures { result ≡ list_any (λ other. pointwise nat_eq key.now other.now) known.now }
{
    known.iter().any(|other| key == *other)
}

fn are_among(table: &Table, known: &[&str]) -> bool
    ensures { result ≡ list_all (λ key. list_any (λ other. pointwise nat_eq (string_bytes key) other.now) known.now) (keys table.now) }
{
    table.keys().all(|key| is_among(known, key.as_str()))
}

/// Whether each key of the table is one of these.
pub fn has_only(table: &Table, known: &[&str]) -> bool
    ensures { result ≡ has_only (map (λ k. k.now) known.now) (table_view table.now) }
{
    are_among(table, known)
}
