//! The checks of sizes: of what there may be too much, and of what there must be some.

ghost use Rattle.std.specs.Prelude.{◌≡◌, ◌==◌, nat_le, nat_lt, length, map, position, IfOk};
ghost use Rattle.std.specs.List.{list_any};
ghost use Rattle.cat_reader.specs.Limits.{empty_groups, is_empty_group, is_estimate, is_large_group, is_long_column, is_longer, is_own_broken, items_past_limits, longest_location, most_relations, no_group, where_past_limits};
ghost use Rattle.cat_reader.specs.Locations.{is_up_to, of_relation};
ghost use Rattle.text_reading.specs.Faults.{broken_if};
ghost use Rattle.text_reading.specs.Order.{least};

use crate::catalogue::Relation;
use crate::locations::{ItemCheck, Where, item_of, least_in_each};
use std::alloc::{AllocError, Global};
use text_reading::{broken_if, index_past, lesser};
use tuple_core::{Column, Text, Words};

const MOST_RELATIONS: usize = 256;

const MOST_COLUMNS: usize = 16;

const MOST_GROUPS: usize = 16;

const MOST_MIRRORS: usize = 8;

const LONGEST_NAME: usize = 64;

const LONGEST_COLUMN: usize = 256;

const LONGEST_LOCATION: usize = 4_096;

const GREATEST_ESTIMATE: i64 = 1_152_921_504_606_846_976;

fn is_longer(limit: usize, text: &Text) -> bool
    ensures { result ≡ is_longer limit text.now }
{
    text.as_bytes().len() > limit
}

fn is_estimate(rows: i64) -> bool
    ensures { result ≡ is_estimate rows }
{
    (0..=GREATEST_ESTIMATE).contains(&rows)
}

fn is_large_group(group: &Words) -> bool
    ensures { result ≡ is_large_group group.now }
{
    group.len() > MOST_MIRRORS || has_longer(group.as_slice())
}

fn has_longer(locations: &[Text]) -> bool
    ensures { result ≡ list_any (is_longer longest_location) locations.now }
{
    locations
        .iter()
        .any(|location| is_longer(LONGEST_LOCATION, location))
}

fn long_column(columns: &[Column]) -> Option<usize>
    ensures { result ≡ position is_long_column columns.now }
{
    columns
        .iter()
        .position(|column| is_longer(LONGEST_COLUMN, &column.name))
}

fn large_group(groups: &[Words]) -> Option<usize>
    ensures { result ≡ position is_large_group groups.now }
{
    groups.iter().position(|group| is_large_group(group))
}

fn is_own_broken(relation: &Relation) -> bool
    ensures { result ≡ is_own_broken relation.now }
{
    is_longer(LONGEST_NAME, &relation.name) || !is_estimate(relation.rows)
}

/// The least index of what is past its limit in a relation, or 0 where it is the name or the estimate.
#[tactic(auto, using(crate::proofs::LimitLaws::least_limit))]
fn item_past_limit(relation: &Relation) -> Option<usize>
    ensures { result ≡ least nat_le (items_past_limits relation.now) }
{
    let own = broken_if(is_own_broken(relation), 0);
    let item = lesser(own, index_past(MOST_COLUMNS, relation.columns.len()));
    let item = lesser(item, index_past(MOST_GROUPS, relation.groups.len()));
    let item = lesser(item, long_column(relation.columns.as_slice()));
    lesser(item, large_group(relation.groups.as_slice()))
}

/// The check of one relation's limits.
struct LimitCheck;

impl ItemCheck<Relation> for LimitCheck {
    ghost broken_in = { items_past_limits };

    fn least_broken(_: Global, relation: &Relation) -> Result<Option<usize>, AllocError> {
        Ok(item_past_limit(relation))
    }
}

#[tactic(auto, using(crate::proofs::LocationLaws::least_of_relations))]
fn past_relations(count: usize) -> Option<Where>
    ensures { result ≡ least is_up_to (map of_relation (broken_if (nat_lt most_relations count) most_relations)) }
{
    match index_past(MOST_RELATIONS, count) {
        Some(relation) => item_of(relation, Some(0)),
        None => None,
    }
}

/// The least location past a limit: where there is too much of something, that of the first one past it.
#[tactic(auto, using(crate::proofs::LocationLaws::where_append))]
pub fn limit_location(alloc: Global, relations: &[Relation]) -> Result<Option<Where>, AllocError>
    ensures { IfOk result (λ found. found ≡ least is_up_to (where_past_limits relations.now)) }
{
    let relation = past_relations(relations.len());
    let item = least_in_each::<Relation, LimitCheck>(alloc, relations)?;
    Ok(lesser(relation, item))
}

fn has_empty(locations: &[Text]) -> bool
    ensures { result ≡ list_any (λ location. length location == 0) locations.now }
{
    locations
        .iter()
        .any(|location| location.as_bytes().is_empty())
}

fn is_empty_group(group: &Words) -> bool
    ensures { result ≡ is_empty_group group.now }
{
    group.is_empty() || has_empty(group.as_slice())
}

fn empty_group(groups: &[Words]) -> Option<usize>
    ensures { result ≡ position is_empty_group groups.now }
{
    groups.iter().position(|group| is_empty_group(group))
}

/// The check that no group of a relation is empty or has an empty location.
pub struct EmptyCheck;

impl ItemCheck<Relation> for EmptyCheck {
    ghost broken_in = { empty_groups };

    #[tactic(auto, using(text_reading::proofs::FaultLaws::least_index))]
    fn least_broken(_: Global, relation: &Relation) -> Result<Option<usize>, AllocError> {
        Ok(empty_group(relation.groups.as_slice()))
    }
}

/// The check that a relation has a group.
pub struct GroupCheck;

impl ItemCheck<Relation> for GroupCheck {
    ghost broken_in = { no_group };

    fn least_broken(_: Global, relation: &Relation) -> Result<Option<usize>, AllocError> {
        Ok(broken_if(relation.groups.is_empty(), 0))
    }
}
