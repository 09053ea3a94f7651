//! The check that no two relations have one name, and no two columns of a relation.

ghost use Rattle.std.specs.Prelude.{◌≡◌, List, ℕ, nat_le, map, IfOk};
ghost use Rattle.cat_reader.specs.Doubled.{doubled_columns, doubled_names, where_doubled};
ghost use Rattle.cat_reader.specs.Locations.{is_up_to, of_relation};
ghost use Rattle.text_reading.specs.Order.{least};

use crate::catalogue::Relation;
use crate::locations::{ItemCheck, Where, item_of, least_in_each};
use indexmap::IndexSet;
use std::alloc::{AllocError, Global};
use text_reading::lesser;
use tuple_core::Column;

/// What has a name that counts for this check.
trait Named {
    ghost name_of: { Self → List ℕ };

    fn name(&self) -> &str
        ensures { result.now ≡ name_of self.now };
}

impl Named for Relation {
    ghost name_of = { λ relation. relation.name };

    fn name(&self) -> &str {
        self.name.as_str()
    }
}

impl Named for Column {
    ghost name_of = { λ column. column.name };

    fn name(&self) -> &str {
        self.name.as_str()
    }
}

fn names_of<T: Named>(alloc: Global, all: &[T]) -> Result<Vec<&str>, AllocError>
    ensures { IfOk result (λ names. map (λ n. n.now) names.items ≡ map T.name_of all.now) }
{
    let mut names = Vec::new(alloc);
    for one in all {
        names.push(one.name())?;
    }
    Ok(names)
}

/// The index of the first name that stands among those before it too.
fn first_doubled(alloc: Global, names: &[&str]) -> Result<Option<usize>, AllocError>
    ensures { IfOk result (λ index. index ≡ least nat_le (doubled_names (map (λ n. n.now) names.now))) }
{
    let mut seen = IndexSet::new(alloc);
    for (index, name) in names.iter().enumerate() {
        let (_, is_new) = seen.insert_full(*name)?;
        if !is_new {
            return Ok(Some(index));
        }
    }
    Ok(None)
}

fn doubled_name<T: Named>(alloc: Global, all: &[T]) -> Result<Option<usize>, AllocError>
    ensures { IfOk result (λ index. index ≡ least nat_le (doubled_names (map T.name_of all.now))) }
{
    let names = names_of(alloc, all)?;
    first_doubled(alloc, names.as_slice())
}

#[tactic(auto, using(crate::proofs::LocationLaws::least_of_relations))]
fn doubled_relation(alloc: Global, relations: &[Relation]) -> Result<Option<Where>, AllocError>
    ensures { IfOk result (λ found. found ≡ least is_up_to (map of_relation (doubled_names (map (λ r. r.name) relations.now)))) }
{
    match doubled_name(alloc, relations)? {
        Some(index) => Ok(item_of(index, Some(0))),
        None => Ok(None),
    }
}

/// The check of one relation's columns.
struct DoubledColumns;

impl ItemCheck<Relation> for DoubledColumns {
    ghost broken_in = { doubled_columns };

    fn least_broken(alloc: Global, relation: &Relation) -> Result<Option<usize>, AllocError> {
        doubled_name(alloc, relation.columns.as_slice())
    }
}

/// The least location of a doubled name: the later one of the two.
#[tactic(auto, using(crate::proofs::LocationLaws::where_append))]
pub fn doubled_location(alloc: Global, relations: &[Relation]) -> Result<Option<Where>, AllocError>
    ensures { IfOk result (λ found. found ≡ least is_up_to (where_doubled relations.now)) }
{
    let relation = doubled_relation(alloc, relations)?;
    let column = least_in_each::<Relation, DoubledColumns>(alloc, relations)?;
    Ok(lesser(relation, column))
}
