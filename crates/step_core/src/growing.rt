//! The net of a plan: its operators are made from the leaves on.

ghost use Rattle.std.specs.Prelude.{◌≡◌, ◌<◌, [], ◌∷◌, length, IfOk, OnOk};
ghost use Rattle.step_core.specs.Edges.{IsUnused};
ghost use Rattle.step_core.specs.Plans.{AddsAtom, AddsJoin, AddsPiece, FitsPlan, HasAtom, HasJoin, HasPiece, IsPlanOf, IsPlanted, Plan};

use crate::net::Net;
use crate::planting::{FreshTree, NetAtom, NetJoin};
use join_trees::{Node as PlanNode, Tree};
use med_base::Source;
use std::alloc::{AllocError, Global};
use std::collections::VecDeque;
use std::marker::Model;

impl<S: Source> Net<S> {
    /// The net of a plan: a tree of joins, with its atoms, one for each leaf from left to right, and its joins, each
    /// behind those of its left tree and of its right one. No member was opened, and there are no rows yet. The names
    /// are those of the atoms and joins, whatever the tree calls them.
    pub fn new(
        alloc: Global,
        tree: &Tree,
        atoms: Vec<NetAtom>,
        joins: Vec<NetJoin>,
    ) -> Result<Self, AllocError>
        requires { (p : Plan) × (IsPlanOf tree.now atoms.items joins.items p × FitsPlan p) }
        ensures tree { (p : Plan) → IsPlanOf tree.now atoms.items joins.items p → IfOk result (λ n. IsPlanted p n.tree) }
        ensures edge { IfOk result (λ n. IsUnused n.edge) }
        ensures rows { IfOk result (λ n. n.rows ≡ []) }
    {
        let grown = grow(alloc, tree, atoms, joins)?;
        Ok(Net::over(alloc, grown))
    }
}

// Trees of operators on a pile. Contracts see the last one in front.
#[derive(Drop)]
struct Pile<S: Source> {
    trees: Vec<FreshTree<S>>,
}

impl<S: Source> Model for Pile<S> {
    ghost use Rattle.std.specs.Prelude.{List, reverse};
    ghost use Rattle.std.specs.Coded.{codes, coded_list};
    ghost use Rattle.step_core.specs.Coded.{tree_code};
    ghost use Rattle.step_core.specs.Nets.{NetTree};

    ghost Value = { List (NetTree S) };

    ghost coded = { coded_list (tree_code (Prim.hlevel (codes, S.code)) (Prim.hlevel codes)) };

    ghost view = { λ p. reverse p.trees.items };
}

impl<S: Source> Pile<S> {
    fn new(alloc: Global) -> Self
        ensures { result ≡ [] }
    {
        Pile {
            trees: Vec::new(alloc),
        }
    }

    fn push(&mut self, tree: FreshTree<S>) -> Result<(), AllocError>
        ensures { OnOk result (self.new ≡ tree ∷ self.old) }
    {
        self.trees.push(tree)?;
        Ok(())
    }

    fn pop(&mut self) -> FreshTree<S>
        requires { 0 < length self.old }
        ensures { self.old ≡ result ∷ self.new }
    {
        match self.trees.pop() {
            Some(tree) => tree,
            None => unreachable!(),
        }
    }
}

fn grow<S: Source>(
    alloc: Global,
    tree: &Tree,
    atoms: Vec<NetAtom>,
    joins: Vec<NetJoin>,
) -> Result<FreshTree<S>, AllocError>
    requires { (p : Plan) × (IsPlanOf tree.now atoms.items joins.items p × FitsPlan p) }
    ensures { (p : Plan) → IsPlanOf tree.now atoms.items joins.items p → IfOk result (λ t. IsPlanted p t) }
{
    let mut next_atoms = VecDeque::from(atoms);
    let mut next_joins = VecDeque::from(joins);
    let mut pile = Pile::new(alloc);
    let nodes = tree.nodes();
    for node in nodes {
        add(alloc, &mut pile, *node, &mut next_atoms, &mut next_joins)?;
    }
    Ok(pile.pop())
}

// What the node stands for is made.
fn add<S: Source>(
    alloc: Global,
    pile: &mut Pile<S>,
    node: PlanNode,
    atoms: &mut VecDeque<NetAtom>,
    joins: &mut VecDeque<NetJoin>,
) -> Result<(), AllocError>
    requires { HasPiece node pile.old atoms.old.items joins.old.items }
    ensures { OnOk result (AddsPiece node pile.old pile.new atoms.old.items atoms.new.items joins.old.items joins.new.items) }
{
    match node {
        PlanNode::Leaf(_) => add_atom(alloc, pile, atoms),
        PlanNode::Join(_) => add_join(alloc, pile, joins),
    }
}

// The first atom is made, and put on the pile.
fn add_atom<S: Source>(
    alloc: Global,
    pile: &mut Pile<S>,
    atoms: &mut VecDeque<NetAtom>,
) -> Result<(), AllocError>
    requires { HasAtom atoms.old.items }
    ensures { OnOk result (AddsAtom pile.old pile.new atoms.old.items atoms.new.items) }
{
    let tree = FreshTree::atom(alloc, first_of(atoms))?;
    pile.push(tree)?;
    Ok(())
}

// The first join is made of the two trees on top.
fn add_join<S: Source>(
    alloc: Global,
    pile: &mut Pile<S>,
    joins: &mut VecDeque<NetJoin>,
) -> Result<(), AllocError>
    requires { HasJoin pile.old joins.old.items }
    ensures { OnOk result (AddsJoin pile.old pile.new joins.old.items joins.new.items) }
{
    let join = first_of(joins);
    let right = pile.pop();
    let left = pile.pop();
    let tree = FreshTree::join(alloc, left, right, join)?;
    pile.push(tree)?;
    Ok(())
}

fn first_of<T>(items: &mut VecDeque<T>) -> T
    requires { 0 < length items.old.items }
    ensures { items.old.items ≡ result ∷ items.new.items }
{
    match items.pop_front() {
        Some(item) => item,
        None => unreachable!(),
    }
}
