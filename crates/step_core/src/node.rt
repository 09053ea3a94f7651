//! The operators of a net, each with those below it.

ghost use Rattle.std.specs.Prelude.{◌≡◌, ℕ, false, true, MatchOption};
ghost use Rattle.tuple_core.specs.Values.{RowList};
ghost use Rattle.step_core.specs.Names.{has_actor, is_called, is_leaf_actor, join_turn};
ghost use Rattle.step_core.specs.Standing.{Stands};
ghost use Rattle.step_core.specs.Steps.{LeafObeys, TreeObeys};
ghost use Rattle.step_core.specs.Viewed.{tree_of};
ghost use Rattle.step_core.specs.declared.actor.Turn.TheVariants as own;

use crate::actor::{Actor, StepEnd, Turn};
use crate::edge::Edge;
use crate::join_node::JoinNode;
use crate::leaf_node::LeafNode;
use med_base::{Name, Source};
use row_match::Side;
use std::alloc::Global;

/// An atom, or a join of the two operators below it. An operator's edge out is kept by the one that takes its rows.
#[derive(Drop)]
pub enum Node<S: Source> {
    Leaf(LeafNode<S>),
    Join(Box<Node<S>>, Box<Node<S>>, JoinNode),
}

impl<S: Source> Node<S> {
    /// Whether the operator has that name.
    pub(crate) fn is_called(&self, name: Name) -> bool
        ensures { result ≡ is_called name (tree_of self.now) }
    {
        match (self, name) {
            (Node::Leaf(leaf), Name::Atom(atom)) => atom == leaf.atom(),
            (Node::Join(_, _, join), Name::Join(number)) => number == join.number(),
            _ => false,
        }
    }

    /// The turn of the operator that the actor means; none where it isn't here. The operator's rows go out on its edge.
    pub(crate) fn step(&mut self, alloc: Global, actor: Actor, out: &mut Edge) -> Option<StepEnd>
        requires stands { (gave : RowList) × Stands S.Source (tree_of self.old) gave }
        ensures { MatchOption result ((has_actor actor (tree_of self.old) ≡ false) × ((tree_of self.new ≡ tree_of self.old) × (out.new ≡ out.old))) (λ end. TreeObeys S.Source actor (tree_of self.old) (tree_of self.new) out.old out.new end) }
    {
        match self {
            Node::Leaf(leaf) => leaf_step(alloc, leaf, actor, out),
            Node::Join(left, right, join) => match turn_of(actor, join.number(), left, right) {
                Some(Turn::Take(side)) => Some(join.take(alloc, side, out)),
                Some(Turn::Close) => Some(join.close(out)),
                None => match left.step(alloc, actor, &mut join.left) {
                    Some(end) => Some(end),
                    None => right.step(alloc, actor, &mut join.right),
                },
            },
        }
    }
}

// What the actor means of a join with that number.
fn turn_of<S: Source>(actor: Actor, number: u32, left: &Node<S>, right: &Node<S>) -> Option<Turn>
    ensures { result ≡ join_turn actor number (tree_of left.now) (tree_of right.now) }
{
    match actor {
        Actor::Pull(_) => None,
        Actor::Edge(name) => {
            if left.is_called(name) {
                Some(Turn::Take(Side::Left))
            } else if right.is_called(name) {
                Some(Turn::Take(Side::Right))
            } else {
                None
            }
        }
        Actor::Closing(name) => {
            if matches!(name, Name::Join(join) if join == number) {
                Some(Turn::Close)
            } else {
                None
            }
        }
    }
}

// The turn of an atom, if the actor means it.
fn leaf_step<S: Source>(
    alloc: Global,
    leaf: &mut LeafNode<S>,
    actor: Actor,
    out: &mut Edge,
) -> Option<StepEnd>
    ensures { MatchOption result ((is_leaf_actor actor leaf.old ≡ false) × ((leaf.new ≡ leaf.old) × (out.new ≡ out.old))) (λ end. LeafObeys S.Source actor leaf.old leaf.new out.old out.new end) }
{
    match actor {
        Actor::Pull(name) => match leaf.find(name) {
            Some(index) => Some(leaf.pull(alloc, index, out)),
            None => None,
        },
        Actor::Closing(Name::Atom(atom)) if atom == leaf.atom() => Some(leaf.close(out)),
        _ => None,
    }
}
