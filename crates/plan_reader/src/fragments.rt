//! The fragments of a plan, from their tables.

ghost use Rattle.std.specs.List.{filter_map, list_all};
ghost use Rattle.std.specs.Prelude.{◌≡◌, map, option_map, option_and_then, IfOk};
ghost use Rattle.toml.specs.Data.{as_table};
ghost use Rattle.toml.specs.View.{table_view, view};
ghost use Rattle.plan_reader.specs.Fragments.{after_in, fragment_in, fragment_read, fragments_named, joins_in, joins_written, names_fragment, names_of, number_in, written_fragment};
ghost use Rattle.join_trees.specs.Shapes.{join_in};
ghost use Rattle.plan_reader.specs.Words.{fragment_of};

use crate::entries::given_at;
use crate::items::Item;
use crate::plan::Fragment;
use crate::words::fragment_number;
use join_trees::{Node, Tree, read_tree};
use med_prelude::Listed;
use std::alloc::{AllocError, Global};
use toml::{Table, Value};
use toml_tables::{has_only, text_at, value_at, values_of};

/// A fragment as its table says it, before it is known whether its text spells a tree.
#[derive(Debug, Drop)]
pub struct WrittenFragment {
    pub number: u32,
    pub tree: Option<Tree>,
    pub estimate: Option<u64>,
    pub after: Listed<u32>,
}

#[tactic(auto, unfolding(crate::specs::Words::fragment_of))]
fn fragment_of(value: &Value) -> Option<u32>
    ensures { result ≡ fragment_of (view value.now) }
{
    match value.as_str() {
        Some(word) => fragment_number(word.as_bytes()),
        None => None,
    }
}

fn all_name_fragments(values: &[Value]) -> bool
    ensures { result ≡ list_all (λ value. names_fragment (view value)) values.now }
{
    values.iter().all(|value| fragment_of(value).is_some())
}

/// The numbers of the fragments that values name.
fn numbers_of(alloc: Global, values: &[Value]) -> Result<Listed<u32>, AllocError>
    ensures { IfOk result (λ numbers. numbers ≡ filter_map fragment_of (map view values.now)) }
{
    let mut numbers = Listed::new(alloc);
    for value in values {
        if let Some(number) = fragment_of(value) {
            numbers.push(number)?;
        }
    }
    Ok(numbers)
}

fn fragments_named(alloc: Global, values: &[Value]) -> Result<Option<Listed<u32>>, AllocError>
    ensures { IfOk result (λ numbers. numbers ≡ fragments_named (map view values.now)) }
{
    if all_name_fragments(values) {
        Ok(Some(numbers_of(alloc, values)?))
    } else {
        Ok(None)
    }
}

/// The fragments to run before it, where they are given as such.
#[tactic(auto, unfolding(crate::specs::Fragments::after_in))]
fn after_in(alloc: Global, table: &Table) -> Result<Option<Listed<u32>>, AllocError>
    ensures { IfOk result (λ numbers. numbers ≡ after_in (table_view table.now)) }
{
    match value_at(table, "after") {
        None => Ok(Some(Listed::new(alloc))),
        Some(value) => match values_of(value) {
            None => Ok(None),
            Some(values) => fragments_named(alloc, values),
        },
    }
}

fn number_in(table: &Table) -> Option<u32>
    ensures { result ≡ number_in (table_view table.now) }
{
    match text_at(table, "name") {
        Some(name) => fragment_number(name.as_bytes()),
        None => None,
    }
}

#[tactic(auto, unfolding(crate::specs::Fragments::fragment_in))]
fn fragment_in(alloc: Global, table: &Table) -> Result<Option<WrittenFragment>, AllocError>
    ensures { IfOk result (λ fragment. fragment ≡ fragment_in (table_view table.now)) }
{
    if !has_only(table, ["name", "tree", "estimate", "after"].as_slice()) {
        return Ok(None);
    }
    let Some(number) = number_in(table) else {
        return Ok(None);
    };
    let Some(text) = text_at(table, "tree") else {
        return Ok(None);
    };
    let Some(estimate) = given_at::<u64>(table, "estimate") else {
        return Ok(None);
    };
    let Some(after) = after_in(alloc, table)? else {
        return Ok(None);
    };
    Ok(Some(WrittenFragment {
        number,
        tree: read_tree(alloc, text.as_bytes())?,
        estimate,
        after,
    }))
}

impl Item<Value> for WrittenFragment {
    ghost item_in = { λ value. written_fragment (view value) };

    fn read(alloc: Global, value: &Value) -> Result<Option<WrittenFragment>, AllocError> {
        match value.as_table() {
            Some(table) => fragment_in(alloc, table),
            None => Ok(None),
        }
    }
}

/// The number of its name, alone.
fn names_of(alloc: Global, fragment: &Option<WrittenFragment>) -> Result<Listed<u32>, AllocError>
    ensures { IfOk result (λ names. names ≡ names_of fragment.now) }
{
    let mut names = Listed::new(alloc);
    if let Some(fragment) = fragment {
        names.push(fragment.number)?;
    }
    Ok(names)
}

/// The numbers of the names, fragment by fragment.
pub fn fragment_names(
    alloc: Global,
    fragments: &[Option<WrittenFragment>],
) -> Result<Listed<Listed<u32>>, AllocError>
    ensures { IfOk result (λ names. names ≡ map names_of fragments.now) }
{
    let mut names = Listed::new(alloc);
    for fragment in fragments {
        names.push(names_of(alloc, fragment)?)?;
    }
    Ok(names)
}

/// The numbers of a tree's joins.
pub fn joins_among(alloc: Global, nodes: &[Node]) -> Result<Listed<u32>, AllocError>
    ensures { IfOk result (λ joins. joins ≡ filter_map join_in nodes.now) }
{
    let mut joins = Listed::new(alloc);
    for node in nodes {
        if let Node::Join(join) = node {
            joins.push(*join)?;
        }
    }
    Ok(joins)
}

fn joins_in(alloc: Global, tree: &Option<Tree>) -> Result<Listed<u32>, AllocError>
    ensures { IfOk result (λ joins. joins ≡ joins_in tree.now) }
{
    match tree {
        Some(tree) => joins_among(alloc, tree.nodes()),
        None => Ok(Listed::new(alloc)),
    }
}

/// The numbers of the joins, fragment by fragment.
pub fn join_names(
    alloc: Global,
    fragments: &[WrittenFragment],
) -> Result<Listed<Listed<u32>>, AllocError>
    ensures { IfOk result (λ names. names ≡ map joins_written fragments.now) }
{
    let mut names = Listed::new(alloc);
    for fragment in fragments {
        names.push(joins_in(alloc, &fragment.tree)?)?;
    }
    Ok(names)
}

/// The fragment, where its text spells a tree.
fn fragment_read(written: WrittenFragment) -> Option<Fragment>
    ensures { result ≡ fragment_read written }
{
    let WrittenFragment {
        number,
        tree,
        estimate,
        after,
    } = written;
    match tree {
        Some(tree) => Some(Fragment {
            number,
            tree,
            estimate,
            after,
        }),
        None => None,
    }
}

/// The fragments whose texts spell trees.
pub fn fragments_read(
    alloc: Global,
    all: Listed<WrittenFragment>,
) -> Result<Listed<Fragment>, AllocError>
    ensures { IfOk result (λ fragments. fragments ≡ filter_map fragment_read all) }
{
    let mut fragments = Listed::new(alloc);
    for written in all.into_vec() {
        if let Some(fragment) = fragment_read(written) {
            fragments.push(fragment)?;
        }
    }
    Ok(fragments)
}
