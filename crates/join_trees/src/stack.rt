//! What a reader of trees keeps: the trees that were read, and the joins whose trees are still to come.

ghost use Rattle.std.specs.Prelude.{◌≡◌, ◌==◌, [], ◌∷◌, length, MatchOption, Some, None, if◌then◌else◌, IfOk, OnOk};
ghost use Rattle.join_trees.specs.Shapes.{joined, only_tree, tip};

use crate::tree::{Leaf, Node, Tree};
use std::alloc::{AllocError, Global};
use std::marker::Model;

/// Trees on a stack. Contracts see the last one in front.
#[derive(Drop)]
pub struct Stack {
    nodes: Vec<Node>,
    trees: usize,
}

impl Model for Stack {
    ghost use Rattle.std.specs.Prelude.{◌≡◌, List, length};
    ghost use Rattle.join_trees.specs.Shapes.{Shape, all_nodes, stack_code, stack_of};

    ghost Value = { List Shape };

    ghost coded = { stack_code };

    ghost view = { λ s. stack_of s.nodes.items };

    ghost invariant = { λ s. (all_nodes (stack_of s.nodes.items) ≡ s.nodes.items) × (length (stack_of s.nodes.items) ≡ s.trees) };
}

impl Stack {
    pub fn new(alloc: Global) -> Self
        ensures { result ≡ [] }
    {
        Stack {
            nodes: Vec::new(alloc),
            trees: 0,
        }
    }

    #[tactic(auto, using(crate::proofs::ShapeLaws::stack_short))]
    pub fn push_leaf(&mut self, leaf: Leaf) -> Result<(), AllocError>
        ensures { OnOk result (self.new ≡ tip leaf ∷ self.old) }
    {
        self.nodes.push(Node::Leaf(leaf))?;
        let nodes = self.nodes.len();
        prove!(self.trees < nodes);
        self.trees += 1;
        Ok(())
    }

    /// Joins the two last trees, where there are two.
    pub fn join(&mut self, join: u32) -> Result<bool, AllocError>
        ensures { IfOk result (λ done. (if done then Some self.new else None) ≡ joined join self.old) }
    {
        if self.trees < 2 {
            return Ok(false);
        }
        self.nodes.push(Node::Join(join))?;
        self.trees -= 1;
        Ok(true)
    }

    pub fn into_tree(self) -> Option<Tree>
        ensures { result ≡ only_tree self }
    {
        if self.trees == 1 {
            Some(Tree::of_nodes(self.nodes))
        } else {
            None
        }
    }
}

/// A join whose trees are still to come, or the right one of which is.
#[derive(Clone, Copy, Debug, PartialEq, Eq)]
pub struct OpenJoin {
    pub join: u32,
    pub has_left: bool,
}

/// Joins inside one another that are open. Contracts see the innermost one in front.
#[derive(Drop)]
pub struct OpenJoins {
    joins: Vec<OpenJoin>,
}

impl Model for OpenJoins {
    ghost use Rattle.std.specs.Prelude.{List, reverse};
    ghost use Rattle.join_trees.specs.declared.stack.OpenJoin.{OpenJoin as AnOpenJoin};

    ghost Value = { List AnOpenJoin };

    ghost view = { λ o. reverse o.joins.items };
}

impl OpenJoins {
    pub fn new(alloc: Global) -> Self
        ensures { result ≡ [] }
    {
        OpenJoins {
            joins: Vec::new(alloc),
        }
    }

    pub fn push(&mut self, opened: OpenJoin) -> Result<(), AllocError>
        ensures { OnOk result (self.new ≡ opened ∷ self.old) }
    {
        self.joins.push(opened)?;
        Ok(())
    }

    /// The innermost join, which is open no longer.
    pub fn pop(&mut self) -> Option<OpenJoin>
        ensures { MatchOption result (self.old ≡ []) (λ opened. self.old ≡ opened ∷ self.new) }
    {
        match self.joins.pop() {
            Some(opened) => Some(opened),
            None => None,
        }
    }

    pub fn is_empty(&self) -> bool
        ensures { result ≡ (length self.now == 0) }
    {
        self.joins.is_empty()
    }
}
