//! What the trees of a plan use: their nodes, atoms, fragments and joins, and how often.

ghost use Rattle.std.specs.List.{filter_map};
ghost use Rattle.std.specs.Prelude.{◌≡◌, map, IfOk};
ghost use Rattle.answer_theory.specs.Bags.{count_of, numbers_from};
ghost use Rattle.answer_theory.specs.Solutions.{names};
ghost use Rattle.join_trees.specs.Shapes.{join_in};
ghost use Rattle.plan_checker.specs.Uses.{atom_of, fragment_of, nodes_in, numbers_of};

use join_trees::{Leaf, Node};
use med_prelude::Listed;
use plan_reader::Fragment;
use std::alloc::{AllocError, Global};

/// The nodes of all trees.
pub fn nodes_in(alloc: Global, fragments: &[Fragment]) -> Result<Vec<Node>, AllocError>
    ensures { IfOk result (λ nodes. nodes.items ≡ nodes_in fragments.now) }
{
    let mut nodes = Vec::new(alloc);
    for fragment in fragments {
        nodes.extend_from_slice(fragment.tree.nodes())?;
    }
    Ok(nodes)
}

/// The atom that a node is.
pub fn atom_of(node: Node) -> Option<u32>
    ensures { result ≡ atom_of node }
{
    match node {
        Node::Leaf(Leaf::Atom(atom)) => Some(atom),
        Node::Leaf(Leaf::Fragment(_)) | Node::Join(_) => None,
    }
}

/// The fragment that a node is.
pub fn fragment_of(node: Node) -> Option<u32>
    ensures { result ≡ fragment_of node }
{
    match node {
        Node::Leaf(Leaf::Fragment(fragment)) => Some(fragment),
        Node::Leaf(Leaf::Atom(_)) | Node::Join(_) => None,
    }
}

fn join_of(node: Node) -> Option<u32>
    ensures { result ≡ join_in node }
{
    match node {
        Node::Join(join) => Some(join),
        Node::Leaf(_) => None,
    }
}

/// The atoms that are leaves, each as often as it is one.
pub fn atoms_used(alloc: Global, nodes: &[Node]) -> Result<Listed<u32>, AllocError>
    ensures { IfOk result (λ atoms. atoms ≡ filter_map atom_of nodes.now) }
{
    let mut atoms = Listed::new(alloc);
    for node in nodes {
        if let Some(atom) = atom_of(*node) {
            atoms.push(atom)?;
        }
    }
    Ok(atoms)
}

/// The fragments that are leaves, each as often as it is one.
pub fn fragments_used(alloc: Global, nodes: &[Node]) -> Result<Listed<u32>, AllocError>
    ensures { IfOk result (λ fragments. fragments ≡ filter_map fragment_of nodes.now) }
{
    let mut fragments = Listed::new(alloc);
    for node in nodes {
        if let Some(fragment) = fragment_of(*node) {
            fragments.push(fragment)?;
        }
    }
    Ok(fragments)
}

/// The joins.
pub fn joins_used(alloc: Global, nodes: &[Node]) -> Result<Listed<u32>, AllocError>
    ensures { IfOk result (λ joins. joins ≡ filter_map join_in nodes.now) }
{
    let mut joins = Listed::new(alloc);
    for node in nodes {
        if let Some(join) = join_of(*node) {
            joins.push(join)?;
        }
    }
    Ok(joins)
}

/// The numbers of the fragments' names.
pub fn numbers_of(alloc: Global, fragments: &[Fragment]) -> Result<Listed<u32>, AllocError>
    ensures { IfOk result (λ numbers. numbers ≡ numbers_of fragments.now) }
{
    let mut numbers = Listed::new(alloc);
    for fragment in fragments {
        numbers.push(fragment.number)?;
    }
    Ok(numbers)
}

/// How often a number stands in a list.
pub fn count_of(number: u32, numbers: &[u32]) -> usize
    ensures { result ≡ count_of number numbers.now }
{
    let mut count = 0usize;
    for other in numbers {
        if *other == number {
            count += 1;
        }
    }
    count
}

/// Whether a number stands in a list.
pub fn is_named(number: u32, numbers: &[u32]) -> bool
    ensures { result ≡ names numbers.now number }
{
    numbers.iter().any(|other| *other == number)
}

/// The numbers from 1 on, so many.
pub fn atom_numbers(alloc: Global, atoms: u32) -> Result<Listed<u32>, AllocError>
    ensures { IfOk result (λ numbers. numbers ≡ numbers_from 1 atoms) }
{
    let mut numbers = Listed::new(alloc);
    for index in 0..atoms {
        numbers.push(index + 1)?;
    }
    Ok(numbers)
}
