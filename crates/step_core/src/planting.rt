//! What a plan's operators are made of, and the net that is made of them.

ghost use Rattle.std.specs.Prelude.{◌≡◌, [], IfOk};
ghost use Rattle.answer_theory.specs.Rows.{glued_variables};
ghost use Rattle.row_match.specs.Patterns.{most_variables};
ghost use Rattle.step_core.specs.Edges.{IsUnused};
ghost use Rattle.step_core.specs.Nets.{leaf, variables};
ghost use Rattle.step_core.specs.Planting.{AreFew, FitsAtom, FitsJoin, IsFork, IsFreshJoin, fresh_leaf};
ghost use Rattle.step_core.specs.Standing.{ArePlaced, HasSelected, Stands};

use crate::edge::Edge;
use crate::join_node::JoinNode;
use crate::leaf_node::LeafNode;
use crate::net::Net;
use crate::node::Node;
use collect_core::{AtomCollector, Selection};
use join_core::Join;
use med_base::Source;
use row_match::{Comparison, Filter, JoinShape, Pattern, Vars};
use row_pages::Rows;
use std::alloc::{AllocError, Global};
use std::marker::Model;
use tuple_core::{Columns, Words};

/// An atom of a plan.
#[derive(Drop)]
pub struct NetAtom {
    pub atom: u32,
    /// Those of its relation.
    pub columns: Columns,
    pub pattern: Pattern,
    /// The comparisons that are placed at the atom.
    pub comparisons: Vec<Comparison>,
    /// Where its members' sources lie: for each group, its mirrors.
    pub groups: Vec<Words>,
}

/// A join of a plan.
#[derive(Drop)]
pub struct NetJoin {
    pub join: u32,
    /// How many buckets each side has.
    pub buckets: u32,
    /// The comparisons that are placed at the join.
    pub comparisons: Vec<Comparison>,
}

/// A tree of operators to which nothing has come yet.
#[derive(Drop)]
pub struct FreshTree<S: Source> {
    node: Box<Node<S>>,
    variables: Vars,
}

impl<S: Source> Model for FreshTree<S> {
    ghost use Rattle.std.specs.Coded.{codes};
    ghost use Rattle.step_core.specs.Coded.{tree_code};
    ghost use Rattle.step_core.specs.Nets.{NetTree};
    ghost use Rattle.step_core.specs.Planting.{IsFresh};
    ghost use Rattle.step_core.specs.Viewed.{tree_of};

    ghost Value = { NetTree S };

    ghost coded = { tree_code (Prim.hlevel (codes, S.code)) (Prim.hlevel codes) };

    ghost view = { λ f. tree_of f.node.value };

    ghost invariant = { λ f. IsFresh S.Source (tree_of f.node.value) f.variables };
}

impl<S: Source> FreshTree<S> {
    /// An atom, none of whose members was opened.
    pub fn atom(alloc: Global, atom: NetAtom) -> Result<Self, AllocError>
        requires { FitsAtom atom }
        ensures { IfOk result (λ t. t ≡ leaf (fresh_leaf atom)) }
    {
        let variables = copy_of(alloc, atom.pattern.variables())?;
        let leaf = LeafNode::new(alloc, atom)?;
        let node = Box::new(alloc, Node::Leaf(leaf))?;
        Ok(FreshTree { node, variables })
    }

    /// A join of two of them.
    pub fn join(alloc: Global, left: Self, right: Self, join: NetJoin) -> Result<Self, AllocError>
        requires { FitsJoin (variables left) (variables right) join }
        ensures { IfOk result (λ t. IsFork join left right t) }
    {
        let (join, variables) = join_of(alloc, &left.variables, &right.variables, join)?;
        let node = Box::new(alloc, Node::Join(left.node, right.node, join))?;
        Ok(FreshTree { node, variables })
    }

    /// What holds of each, for callers' proofs. It does nothing.
    pub fn stands(&self)
        ensures stands { Stands S.Source self.now [] }
        ensures placed { ArePlaced self.now }
    {
        let _node = &self.node;
    }
}

impl<S: Source> Net<S> {
    /// The net of these operators, which has no rows yet.
    pub fn over(alloc: Global, tree: FreshTree<S>) -> Self
        ensures tree { result.tree ≡ tree }
        ensures edge { IsUnused result.edge }
        ensures rows { result.rows ≡ [] }
    {
        Net {
            tree: Box::into_inner(tree.node),
            edge: Edge::new(alloc),
            rows: Rows::new(alloc),
        }
    }
}

impl<S: Source> LeafNode<S> {
    fn new(alloc: Global, atom: NetAtom) -> Result<Self, AllocError>
        requires { FitsAtom atom }
        ensures new { IfOk result (λ l. l ≡ fresh_leaf atom) }
        ensures selected { IfOk result (λ l. HasSelected S.Source l []) }
    {
        let NetAtom {
            atom,
            columns,
            pattern,
            comparisons,
            groups,
        } = atom;
        let variables = copy_of(alloc, pattern.variables())?;
        let selection = Selection::new(pattern, Filter::new(variables, comparisons));
        let collector = AtomCollector::new(alloc, atom, columns, selection, groups.as_slice())?;
        // For the proof; it does nothing.
        collector.stands();
        Ok(LeafNode { atom, collector })
    }
}

// The join of two sides over these variables, and the variables of both.
fn join_of(
    alloc: Global,
    left: &Vars,
    right: &Vars,
    join: NetJoin,
) -> Result<(JoinNode, Vars), AllocError>
    requires fits { FitsJoin left.now right.now join }
    requires left { AreFew left.now }
    requires right { AreFew right.now }
    ensures join { IfOk result (λ made. IsFreshJoin left.now right.now join made.0) }
    ensures variables { IfOk result (λ made. made.1 ≡ glued_variables left.now right.now) }
    ensures few { IfOk result (λ made. AreFew made.1) }
{
    // For the proof; it does nothing.
    let (_left, _right) = (left.as_slice(), right.as_slice());
    let shape = JoinShape::new(alloc, left, right)?;
    let variables = copy_of(alloc, shape.variables())?;
    let joined = copy_of(alloc, shape.variables())?;
    let node = JoinNode {
        number: join.join,
        join: Join::new(alloc, shape, join.buckets)?,
        filter: Filter::new(joined, join.comparisons),
        left: Edge::new(alloc),
        right: Edge::new(alloc),
    };
    Ok((node, variables))
}

fn copy_of(alloc: Global, variables: &Vars) -> Result<Vars, AllocError>
    ensures { IfOk result (λ copy. copy ≡ variables.now) }
{
    Ok(Vars::new(Vec::from_slice(alloc, variables.as_slice())?))
}
