//! The members of a net's atoms, and what a net tells of its operators.

ghost use Rattle.std.specs.Prelude.{◌≡◌, true, ◌^◌, ◌≤◌, ◌++◌, [], map, option_map, IfOk, IfSome, IsSomeAnd, OnErr, OnOk};
ghost use Rattle.std.specs.List.{find};
ghost use Rattle.med_base.specs.declared.member.MemberState.TheVariants as state;
ghost use Rattle.collect_core.specs.Giving.{FailsOpening, Gives};
ghost use Rattle.collect_core.specs.Members.{AreSound, end_of, is_named, member_now};
ghost use Rattle.step_core.specs.Members.{AreSoundIn, ChangesLeaf, IsFirstOf, IsIdleIn, KeepsLeaf, KeepsTree, LiesAt, NetFails, NetGives, TreeFails, TreeGives, earlier, edge_out, member_in, members_of, starved_groups, starved_in};
ghost use Rattle.step_core.specs.Viewed.{tree_of};
ghost use Rattle.step_core.specs.Wholes.{HasAnswered};

use crate::edge::Edge;
use crate::leaf_node::LeafNode;
use crate::net::Net;
use crate::node::Node;
use collect_core::MemberNow;
use csv_wrap::{MemberEnd, Members};
use med_base::{GroupName, MemberName, Name, Source};
use row_pages::Rows;
use std::alloc::{AllocError, Global};

/// What a net leaves.
#[derive(Drop)]
pub struct NetParts<S: Source> {
    /// The ends of the members of all atoms, from left to right.
    pub members: Members<S>,
    pub rows: Rows,
}

impl<S: Source> Net<S> {
    /// How many rows the atom or join of that name gave so far; none where it isn't in the net.
    pub fn given(&self, name: Name) -> Option<u64>
        ensures { result ≡ option_map (λ w. w.given) (edge_out name self.now.tree self.now.edge) }
    {
        let edge = self.tree.edge_out(name, &self.edge)?;
        Some(edge.given())
    }

    /// Whether the atom or join of that name said that no more rows will come; none where it isn't in the net.
    pub fn closed(&self, name: Name) -> Option<bool>
        ensures { result ≡ option_map (λ w. w.put) (edge_out name self.now.tree self.now.edge) }
    {
        let edge = self.tree.edge_out(name, &self.edge)?;
        Some(edge.closed())
    }

    /// How the member of that name stands; none where it isn't in the net.
    pub fn member(&self, name: MemberName) -> Option<MemberNow>
        ensures { result ≡ option_map member_now (member_in name self.now.tree) }
    {
        self.tree.member(name)
    }

    /// Where the source of the member of that name lies; none where it isn't in the net.
    pub fn location(&self, name: MemberName) -> Option<&str>
        ensures { option_map (λ text. text.now) result ≡ option_map (λ m. m.location) (member_in name self.now.tree) }
    {
        self.tree.location(name)
    }

    /// Gives a fresh source, opened at its location, to the member of that name, which was not opened yet. Where memory
    /// runs out, the source is gone.
    pub fn give(&mut self, alloc: Global, name: MemberName, source: S) -> Result<(), AllocError>
        requires idle { IsIdleIn name self.old.tree }
        requires at { LiesAt name self.old.tree (S.location source) }
        requires fresh { IfSome (S.taken source) (λ taken. taken ≡ []) }
        requires calm { S.faults source ≡ 0 }
        requires few { S.left source ≤ 2 ^ 62 }
        ensures ok { IfOk result (λ _. NetGives S.Source source name self.old self.new) }
        ensures err { OnErr result (self.new ≡ self.old) }
    {
        self.tree.give(alloc, name, source)
    }

    /// The member of that name, which was not opened yet, couldn't be opened.
    pub fn opening_failed(&mut self, name: MemberName)
        requires { IsIdleIn name self.old.tree }
        ensures { NetFails name self.old self.new }
    {
        self.tree.opening_failed(name);
    }

    /// The first group, by atom and then by group, whose members all failed.
    pub fn starved(&self) -> Option<GroupName>
        ensures starved { result ≡ starved_in self.now.tree }
        ensures first { IsFirstOf (starved_groups self.now.tree) result }
    {
        self.tree.starved()
    }

    /// The rows that were taken of the last edge so far.
    pub fn rows(&self) -> &Rows
        ensures { result.now ≡ self.now.rows }
    {
        &self.rows
    }

    /// Whether the end of the last edge was taken. No more rows will come then, and those that were taken are what the
    /// atoms' accepted rows give.
    pub fn finished(&self) -> bool
        ensures taken { result ≡ self.now.edge.taken }
        ensures answered { result ≡ true → HasAnswered S.Source self.now }
    {
        self.stands();
        self.edge.closed() && !self.edge.ends()
    }

    /// How the members ended, if the run ends now, from left to right, and the rows. Where memory runs out they are
    /// gone.
    pub fn into_parts(self, alloc: Global) -> Result<NetParts<S>, AllocError>
        ensures members { IfOk result (λ parts. parts.members ≡ map end_of (members_of self.tree)) }
        ensures rows { IfOk result (λ parts. parts.rows ≡ self.rows) }
        ensures sound { OnOk result (AreSoundIn S.Source self.tree) }
    {
        let mut ends = Vec::new(alloc);
        self.tree.into_ends(alloc, &mut ends)?;
        Ok(NetParts {
            members: Members::from_vec(ends),
            rows: self.rows,
        })
    }
}

impl<S: Source> Node<S> {
    // The edge out of the operator of that name, where this one's is given.
    fn edge_out<'a>(&'a self, name: Name, out: &'a Edge) -> Option<&'a Edge>
        ensures { option_map (λ e. e.now) result ≡ edge_out name (tree_of self.now) out.now }
    {
        if self.is_called(name) {
            return Some(out);
        }
        match self {
            Node::Leaf(_) => None,
            Node::Join(left, right, join) => match left.edge_out(name, &join.left) {
                Some(edge) => Some(edge),
                None => right.edge_out(name, &join.right),
            },
        }
    }

    fn member(&self, name: MemberName) -> Option<MemberNow>
        ensures { result ≡ option_map member_now (member_in name (tree_of self.now)) }
    {
        match self {
            Node::Leaf(leaf) => leaf.member(name),
            Node::Join(left, right, _) => match left.member(name) {
                Some(now) => Some(now),
                None => right.member(name),
            },
        }
    }

    fn location(&self, name: MemberName) -> Option<&str>
        ensures { option_map (λ text. text.now) result ≡ option_map (λ m. m.location) (member_in name (tree_of self.now)) }
    {
        match self {
            Node::Leaf(leaf) => leaf.location(name),
            Node::Join(left, right, _) => match left.location(name) {
                Some(location) => Some(location),
                None => right.location(name),
            },
        }
    }

    fn give(&mut self, alloc: Global, name: MemberName, source: S) -> Result<(), AllocError>
        requires idle { IsIdleIn name (tree_of self.old) }
        requires at { LiesAt name (tree_of self.old) (S.location source) }
        requires fresh { IfSome (S.taken source) (λ taken. taken ≡ []) }
        requires calm { S.faults source ≡ 0 }
        requires few { S.left source ≤ 2 ^ 62 }
        ensures ok { IfOk result (λ _. TreeGives S.Source source name (tree_of self.old) (tree_of self.new)) }
        ensures err { OnErr result (tree_of self.new ≡ tree_of self.old) }
        ensures kept { KeepsTree S.Source (tree_of self.old) (tree_of self.new) }
    {
        match self {
            Node::Leaf(leaf) => leaf.give(alloc, name, source),
            Node::Join(left, right, _) => {
                if left.member(name).is_some() {
                    left.give(alloc, name, source)
                } else {
                    right.give(alloc, name, source)
                }
            }
        }
    }

    fn opening_failed(&mut self, name: MemberName)
        requires { IsIdleIn name (tree_of self.old) }
        ensures fails { TreeFails name (tree_of self.old) (tree_of self.new) }
        ensures kept { KeepsTree S.Source (tree_of self.old) (tree_of self.new) }
    {
        match self {
            Node::Leaf(leaf) => leaf.opening_failed(name),
            Node::Join(left, right, _) => {
                if left.member(name).is_some() {
                    left.opening_failed(name);
                } else {
                    right.opening_failed(name);
                }
            }
        }
    }

    fn starved(&self) -> Option<GroupName>
        ensures { result ≡ starved_in (tree_of self.now) }
    {
        match self {
            Node::Leaf(leaf) => leaf.collector.starved(),
            Node::Join(left, right, _) => earlier(left.starved(), right.starved()),
        }
    }

    // Puts the ends of the members behind the others.
    fn into_ends(self, alloc: Global, ends: &mut Vec<MemberEnd<S>>) -> Result<(), AllocError>
        ensures ends { OnOk result (ends.new.items ≡ ends.old.items ++ map end_of (members_of (tree_of self))) }
        ensures sound { OnOk result (AreSoundIn S.Source (tree_of self)) }
    {
        match self {
            Node::Leaf(leaf) => leaf.into_ends(alloc, ends),
            Node::Join(left, right, _) => {
                Box::into_inner(left).into_ends(alloc, ends)?;
                Box::into_inner(right).into_ends(alloc, ends)
            }
        }
    }
}

// The group of the lesser atom, where there are two.
fn earlier(first: Option<GroupName>, second: Option<GroupName>) -> Option<GroupName>
    ensures { result ≡ earlier first second }
{
    match (first, second) {
        (Some(group), Some(other)) if other.atom < group.atom => Some(other),
        (Some(group), _) => Some(group),
        (None, other) => other,
    }
}

impl<S: Source> LeafNode<S> {
    // Puts the ends of the members behind the others.
    fn into_ends(self, alloc: Global, ends: &mut Vec<MemberEnd<S>>) -> Result<(), AllocError>
        ensures ends { OnOk result (ends.new.items ≡ ends.old.items ++ map end_of self.collecting.members) }
        ensures sound { AreSound S.Source self.collecting.columns self.collecting.members }
    {
        let mut members = self.collector.into_ends(alloc)?.into_vec();
        ends.append(&mut members)
    }

    fn member(&self, name: MemberName) -> Option<MemberNow>
        ensures { result ≡ option_map member_now (find (is_named name) self.now.collecting.members) }
    {
        let index = self.collector.find(name)?;
        Some(self.collector.member(index))
    }

    fn location(&self, name: MemberName) -> Option<&str>
        ensures { option_map (λ text. text.now) result ≡ option_map (λ m. m.location) (find (is_named name) self.now.collecting.members) }
    {
        let index = self.collector.find(name)?;
        Some(self.collector.location(index))
    }

    fn give(&mut self, alloc: Global, name: MemberName, source: S) -> Result<(), AllocError>
        requires idle { IsSomeAnd (find (is_named name) self.old.collecting.members) (λ m. (member_now m).state ≡ state.Idle) }
        requires at { IsSomeAnd (find (is_named name) self.old.collecting.members) (λ m. m.location ≡ S.location source) }
        requires fresh { IfSome (S.taken source) (λ taken. taken ≡ []) }
        requires calm { S.faults source ≡ 0 }
        requires few { S.left source ≤ 2 ^ 62 }
        ensures ok { IfOk result (λ _. ChangesLeaf (λ s t index. Gives S.Source s t index source) name self.old self.new) }
        ensures err { OnErr result (self.new ≡ self.old) }
        ensures kept { KeepsLeaf S.Source self.old self.new }
    {
        let Some(index) = self.collector.find(name) else {
            unreachable!();
        };
        let given = self.collector.give(alloc, index, source);
        self.collector.stands();
        given
    }

    fn opening_failed(&mut self, name: MemberName)
        requires { IsSomeAnd (find (is_named name) self.old.collecting.members) (λ m. (member_now m).state ≡ state.Idle) }
        ensures fails { ChangesLeaf FailsOpening name self.old self.new }
        ensures kept { KeepsLeaf S.Source self.old self.new }
    {
        let Some(index) = self.collector.find(name) else {
            unreachable!();
        };
        self.collector.opening_failed(index);
        self.collector.stands();
    }
}
