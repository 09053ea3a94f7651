//! Trees of joins.

ghost use Rattle.std.specs.Prelude.{◌≡◌};
ghost use Rattle.join_trees.specs.Shapes.{nodes_of, shape_of};

use std::marker::Model;

/// What a tree takes its rows from: an atom of the query, or the result of a fragment.
#[derive(Clone, Copy, Debug, PartialEq, Eq)]
pub enum Leaf {
    Atom(u32),
    Fragment(u32),
}

/// A leaf, or a join of the two trees before it.
#[derive(Clone, Copy, Debug, PartialEq, Eq)]
pub enum Node {
    Leaf(Leaf),
    Join(u32),
}

/// A tree of joins. It is kept as the list of its nodes, a join behind the nodes of its two trees, so that a deep one is
/// neither read nor let go by recursion. Contracts see it as a tree.
#[derive(Debug, Drop)]
pub struct Tree {
    nodes: Vec<Node>,
}

impl Model for Tree {
    ghost use Rattle.std.specs.Prelude.{◌≡◌};
    ghost use Rattle.join_trees.specs.Shapes.{Shape, shape_code, nodes_of, shape_of};

    ghost Value = { Shape };

    ghost coded = { shape_code };

    ghost view = { λ t. shape_of t.nodes.items };

    ghost invariant = { λ t. nodes_of (shape_of t.nodes.items) ≡ t.nodes.items };
}

impl Tree {
    /// The tree of all these nodes.
    pub(crate) fn of_nodes(nodes: Vec<Node>) -> Self
        requires whole { nodes_of (shape_of nodes.items) ≡ nodes.items }
        ensures { result ≡ shape_of nodes.items }
    {
        Tree { nodes }
    }

    /// The nodes: those of the left tree, those of the right one, and then the join of the two.
    pub fn nodes(&self) -> &[Node]
        ensures { result.now ≡ nodes_of self.now }
    {
        self.nodes.as_slice()
    }
}
