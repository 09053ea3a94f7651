//! The joins of trees, each with the atoms under it.

ghost use Rattle.std.specs.Prelude.{◌≡◌, [], ◌∷◌, ◌++◌, IfOk, OnOk};
ghost use Rattle.join_trees.specs.declared.tree.Node.TheVariants as node;
ghost use Rattle.plan_checker.specs.Places.{all_join_sites, atoms_in};
ghost use Rattle.plan_checker.specs.Walks.{below, top, walk, with_node, with_nodes};

use join_trees::{Leaf, Node};
use med_base::Name;
use med_prelude::Listed;
use plan_reader::Fragment;
use std::alloc::{AllocError, Global};
use std::marker::Model;

/// A node of a tree, with the atoms under it.
#[derive(Debug, Drop)]
pub struct Site {
    pub name: Name,
    pub atoms: Listed<u32>,
}

/// A fragment, with the atoms under its tree.
#[derive(Debug, Drop)]
pub struct FinishedFragment {
    pub number: u32,
    pub atoms: Listed<u32>,
}

/// Lists of atoms on a pile. Contracts see the last one in front.
#[derive(Drop)]
pub struct Pile {
    lists: Vec<Listed<u32>>,
}

impl Model for Pile {
    ghost use Rattle.std.specs.Prelude.{List, ℕ, reverse};

    ghost Value = { List (List ℕ) };

    ghost view = { λ p. reverse p.lists.items };
}

impl Pile {
    fn new(alloc: Global) -> Self
        ensures { result ≡ [] }
    {
        Pile {
            lists: Vec::new(alloc),
        }
    }

    fn push(&mut self, atoms: Listed<u32>) -> Result<(), AllocError>
        ensures { OnOk result (self.new ≡ atoms ∷ self.old) }
    {
        self.lists.push(atoms)?;
        Ok(())
    }

    /// The last list, or an empty one where there is none.
    fn pop(&mut self, alloc: Global) -> Listed<u32>
        ensures top { result ≡ top self.old }
        ensures below { self.new ≡ below self.old }
    {
        match self.lists.pop() {
            Some(atoms) => atoms,
            None => Listed::new(alloc),
        }
    }
}

/// What was gone through: the atoms under the trees so far, and the joins so far.
#[derive(Drop)]
pub struct Walk {
    pub pile: Pile,
    pub sites: Listed<Site>,
}

/// The atoms under the fragment of that number; none where it isn't finished.
fn atoms_in(finished: &[FinishedFragment], number: u32) -> &[u32]
    ensures { result.now ≡ atoms_in finished.now number }
{
    for fragment in finished {
        if fragment.number == number {
            return fragment.atoms.as_slice();
        }
    }
    &[]
}

fn copy_of(alloc: Global, atoms: &[u32]) -> Result<Listed<u32>, AllocError>
    ensures { IfOk result (λ copy. copy ≡ atoms.now) }
{
    Ok(Listed::from_vec(Vec::from_slice(alloc, atoms)?))
}

fn with_leaf(
    alloc: Global,
    finished: &[FinishedFragment],
    walk: Walk,
    leaf: Leaf,
) -> Result<Walk, AllocError>
    ensures { IfOk result (λ next. next ≡ with_node finished.now walk (node.Leaf leaf)) }
{
    let Walk { mut pile, sites } = walk;
    let atoms = match leaf {
        Leaf::Atom(atom) => copy_of(alloc, [atom].as_slice())?,
        Leaf::Fragment(fragment) => copy_of(alloc, atoms_in(finished, fragment))?,
    };
    pile.push(atoms)?;
    Ok(Walk { pile, sites })
}

/// The atoms of both, one list behind the other.
fn both(one: Listed<u32>, other: &[u32]) -> Result<Listed<u32>, AllocError>
    ensures { IfOk result (λ atoms. atoms ≡ one ++ other.now) }
{
    let mut atoms = one.into_vec();
    atoms.extend_from_slice(other)?;
    Ok(Listed::from_vec(atoms))
}

fn with_join(alloc: Global, walk: Walk, join: u32) -> Result<Walk, AllocError>
    ensures { IfOk result (λ next. next ≡ with_node [] walk (node.Join join)) }
{
    let Walk {
        mut pile,
        mut sites,
    } = walk;
    let right = pile.pop(alloc);
    let left = pile.pop(alloc);
    let atoms = both(left, right.as_slice())?;
    sites.push(Site {
        name: Name::Join(join),
        atoms: copy_of(alloc, atoms.as_slice())?,
    })?;
    pile.push(atoms)?;
    Ok(Walk { pile, sites })
}

fn with_node(
    alloc: Global,
    finished: &[FinishedFragment],
    walk: Walk,
    node: Node,
) -> Result<Walk, AllocError>
    ensures { IfOk result (λ next. next ≡ with_node finished.now walk node) }
{
    match node {
        Node::Leaf(leaf) => with_leaf(alloc, finished, walk, leaf),
        Node::Join(join) => with_join(alloc, walk, join),
    }
}

/// Goes through the nodes of a tree, behind the joins that are there already.
fn walk_tree(
    alloc: Global,
    finished: &[FinishedFragment],
    sites: Listed<Site>,
    nodes: &[Node],
) -> Result<Walk, AllocError>
    ensures { IfOk result (λ end. end ≡ with_nodes finished.now (walk [] sites) nodes.now) }
{
    let mut walk = Walk {
        pile: Pile::new(alloc),
        sites,
    };
    for node in nodes {
        walk = with_node(alloc, finished, walk, *node)?;
    }
    Ok(walk)
}

/// The joins of all fragments, in the order in which these run.
pub fn all_join_sites(alloc: Global, fragments: &[Fragment]) -> Result<Listed<Site>, AllocError>
    ensures { IfOk result (λ sites. sites ≡ all_join_sites [] fragments.now) }
{
    let mut finished = Vec::new(alloc);
    let mut sites = Listed::new(alloc);
    for fragment in fragments {
        let walk = walk_tree(alloc, finished.as_slice(), sites, fragment.tree.nodes())?;
        let Walk {
            mut pile,
            sites: more,
        } = walk;
        sites = more;
        finished.push(FinishedFragment {
            number: fragment.number,
            atoms: pile.pop(alloc),
        })?;
    }
    Ok(sites)
}
