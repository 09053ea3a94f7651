//! The parts of a pass: each member is read, and then what waits goes on as far as it can.

ghost use Rattle.std.specs.Prelude.{◌≡◌, ◌≢◌, ◌<◌, ◌≤◌, true, false, length, OnErr, OnOk};
ghost use Rattle.std.specs.List.{AllZip};
ghost use Rattle.tuple_core.specs.Values.{RowList};
ghost use Rattle.step_core.specs.Edges.{IsEmpty, SameWaits};
ghost use Rattle.step_core.specs.Going.{Goes};
ghost use Rattle.step_core.specs.Joins.{MayTake};
ghost use Rattle.step_core.specs.Members.{members_of};
ghost use Rattle.step_core.specs.Nets.{leaf};
ghost use Rattle.step_core.specs.Parts.{AcceptsAll, ReadsAt, ReadsTo, TakesWhile};
ghost use Rattle.step_core.specs.Passes.{AreSettledIn, IsQuiet, MemberAccepts, MemberGoesOn, NetIsQuiet, TreeIdles, TreeReads, has_room};
ghost use Rattle.step_core.specs.Same.{SameOperators};
ghost use Rattle.step_core.specs.Standing.{NetStands, Stands};
ghost use Rattle.step_core.specs.Viewed.{tree_of};
ghost use Rattle.step_core.specs.Work.{Falls, net_left};
ghost use Rattle.step_core.specs.declared.actor.StepEnd.TheVariants as step_end;

use crate::actor::StepEnd;
use crate::edge::Edge;
use crate::join_node::JoinNode;
use crate::leaf_node::LeafNode;
use crate::net::Net;
use crate::node::Node;
use med_base::Source;
use row_match::Side;
use std::alloc::{AllocError, Global};

impl<S: Source> Net<S> {
    /// The members have a turn each, from left to right: of each active one the source is pulled once at most, and the
    /// rows that it holds then are accepted while fewer than 1,024 wait on its atom's edge. An atom on whose edge so many
    /// wait is held back. It stands still where the source of each active member that wasn't held back answered that
    /// nothing is there yet; where nothing was to do but for members before, nothing is then.
    pub fn read_members(&mut self, alloc: Global) -> StepEnd
        ensures stands { NetStands S.Source self.new }
        ensures operators { SameOperators self.old.tree self.new.tree }
        ensures members { AllZip (MemberGoesOn S.Source) (members_of self.old.tree) (members_of self.new.tree) }
        ensures reads { result ≢ step_end.NoMemory → TreeReads S.Source self.old.tree self.new.tree self.old.edge self.new.edge }
        ensures idle { result ≡ step_end.Still → TreeIdles S.Source self.old.tree self.new.tree self.old.edge self.new.edge }
        ensures quiet { result ≡ step_end.Still → NetIsQuiet self.old → NetIsQuiet self.new }
        ensures rows { self.new.rows ≡ self.old.rows }
        ensures falls { Falls result (net_left S.Source self.old) (net_left S.Source self.new) }
    {
        self.tree.read(alloc, &mut self.edge)
    }

    /// All that waits goes on: each operator takes what waits for it while fewer than 1,024 of its own rows do, and says
    /// that no more rows will come where all were given; the rows of the last edge are taken. So it goes on up to where
    /// nothing is to do but for members. Where memory runs out the net stands.
    pub fn drain(&mut self, alloc: Global) -> StepEnd
        ensures stands { NetStands S.Source self.new }
        ensures operators { SameOperators self.old.tree self.new.tree }
        ensures members { members_of self.new.tree ≡ members_of self.old.tree }
        ensures quiet { result ≢ step_end.NoMemory → NetIsQuiet self.new }
        ensures finished { result ≢ step_end.NoMemory → AreSettledIn self.new.tree → self.new.edge.taken ≡ true }
        ensures falls { Falls result (net_left S.Source self.old) (net_left S.Source self.new) }
    {
        self.stands();
        let mut end = StepEnd::Still;
        loop {
            match self.sweep(alloc) {
                StepEnd::Moved => end = StepEnd::Moved,
                StepEnd::Still => return end,
                StepEnd::NoMemory => return StepEnd::NoMemory,
            }
        }
    }

    // Once from the atoms to the list. Where nothing moved, nothing is to do.
    fn sweep(&mut self, alloc: Global) -> StepEnd
        ensures stands { NetStands S.Source self.new }
        ensures operators { SameOperators self.old.tree self.new.tree }
        ensures members { members_of self.new.tree ≡ members_of self.old.tree }
        ensures quiet { result ≡ step_end.Still → NetIsQuiet self.new }
        ensures falls { Falls result (net_left S.Source self.old) (net_left S.Source self.new) }
    {
        let end = self.tree.sweep(alloc, &mut self.edge);
        end.then(self.take_rows(alloc))
    }

    // The list takes the rows that wait, and the end.
    fn take_rows(&mut self, alloc: Global) -> StepEnd
        ensures stands { NetStands S.Source self.new }
        ensures tree { self.new.tree ≡ self.old.tree }
        ensures empty { result ≡ step_end.Still → (self.new.edge ≡ self.old.edge) × IsEmpty self.new.edge }
        ensures falls { Falls result (net_left S.Source self.old) (net_left S.Source self.new) }
    {
        self.stands();
        let mut end = StepEnd::Still;
        loop {
            match self.list_turn(alloc) {
                StepEnd::Moved => end = StepEnd::Moved,
                StepEnd::Still => return end,
                StepEnd::NoMemory => return StepEnd::NoMemory,
            }
        }
    }
}

impl<S: Source> Node<S> {
    // The members below are read.
    fn read(&mut self, alloc: Global, out: &mut Edge) -> StepEnd
        ensures goes { Goes S.Source result (tree_of self.old) (tree_of self.new) out.old out.new }
        ensures members { AllZip (MemberGoesOn S.Source) (members_of (tree_of self.old)) (members_of (tree_of self.new)) }
        ensures reads { result ≢ step_end.NoMemory → TreeReads S.Source (tree_of self.old) (tree_of self.new) out.old out.new }
        ensures idle { result ≡ step_end.Still → TreeIdles S.Source (tree_of self.old) (tree_of self.new) out.old out.new }
    {
        match self {
            Node::Leaf(leaf) => leaf.read(alloc, out),
            Node::Join(left, right, join) => {
                let first = match left.read(alloc, &mut join.left) {
                    StepEnd::NoMemory => return StepEnd::NoMemory,
                    first => first,
                };
                first.then(right.read(alloc, &mut join.right))
            }
        }
    }

    // What waits goes on, from the atoms to this operator's edge out. Where nothing moved and that edge has room,
    // nothing is to do.
    fn sweep(&mut self, alloc: Global, out: &mut Edge) -> StepEnd
        requires stands { (gave : RowList) × Stands S.Source (tree_of self.old) gave }
        ensures goes { Goes S.Source result (tree_of self.old) (tree_of self.new) out.old out.new }
        ensures members { members_of (tree_of self.new) ≡ members_of (tree_of self.old) }
        ensures quiet { result ≡ step_end.Still → has_room out.new ≡ true → IsQuiet (tree_of self.new) out.new }
    {
        match self {
            Node::Leaf(leaf) => leaf.close(out),
            Node::Join(left, right, join) => {
                let below = left
                    .sweep(alloc, &mut join.left)
                    .then(right.sweep(alloc, &mut join.right));
                let lefts = join.take_some(alloc, Side::Left, out);
                let rights = join.take_some(alloc, Side::Right, out);
                // For the proof; it does nothing.
                join.owes_nothing();
                let closing = join.close(out);
                below.then(lefts.then(rights).then(closing))
            }
        }
    }
}

impl<S: Source> LeafNode<S> {
    // The atom's members are read.
    fn read(&mut self, alloc: Global, out: &mut Edge) -> StepEnd
        ensures goes { Goes S.Source result (leaf self.old) (leaf self.new) out.old out.new }
        ensures members { AllZip (MemberGoesOn S.Source) self.old.collecting.members self.new.collecting.members }
        ensures reads { result ≢ step_end.NoMemory → TreeReads S.Source (leaf self.old) (leaf self.new) out.old out.new }
        ensures idle { result ≡ step_end.Still → TreeIdles S.Source (leaf self.old) (leaf self.new) out.old out.new }
    {
        if out.closed() {
            return StepEnd::Still;
        }
        if !out.has_room() {
            return StepEnd::Still;
        }
        let mut end = StepEnd::Still;
        for index in 0..self.collector.len() {
            match self.read_member(alloc, index, out) {
                StepEnd::Moved => end = StepEnd::Moved,
                StepEnd::Still => {}
                StepEnd::NoMemory => return StepEnd::NoMemory,
            }
        }
        end
    }

    // A member makes a step, and where it moved, the rows that it holds then are accepted.
    fn read_member(&mut self, alloc: Global, index: usize, out: &mut Edge) -> StepEnd
        requires inside { index < length self.old.collecting.members }
        requires goes_on { out.old.put ≡ false }
        ensures reads { ReadsAt S.Source (ReadsTo S.Source self.old.collecting.select out.new result) self.old self.new index out.old out.new result }
        ensures still { result ≡ step_end.Still → SameWaits out.old out.new }
    {
        match self.pull(alloc, index, out) {
            StepEnd::Moved => {}
            StepEnd::Still => return StepEnd::Still,
            StepEnd::NoMemory => return StepEnd::NoMemory,
        }
        match self.accept_all(alloc, index, out) {
            Ok(()) => StepEnd::Moved,
            Err(AllocError) => StepEnd::NoMemory,
        }
    }

    // The rows that a member holds are accepted, while few wait on the edge.
    fn accept_all(&mut self, alloc: Global, index: usize, out: &mut Edge) -> Result<(), AllocError>
        requires inside { index < length self.old.collecting.members }
        requires goes_on { out.old.put ≡ false }
        ensures ok { OnOk result (ReadsAt S.Source (AcceptsAll out.new) self.old self.new index out.old out.new step_end.Still) }
        ensures err { OnErr result (ReadsAt S.Source MemberAccepts self.old self.new index out.old out.new step_end.NoMemory) }
    {
        while out.has_room() {
            match self.accept(alloc, index, out) {
                StepEnd::Moved => {}
                StepEnd::Still => return Ok(()),
                StepEnd::NoMemory => return Err(AllocError),
            }
        }
        Ok(())
    }
}

impl JoinNode {
    // Items of the edge on that side are taken, while few rows wait on the edge out.
    fn take_some(&mut self, alloc: Global, side: Side, out: &mut Edge) -> StepEnd
        requires { MayTake side self.old }
        ensures { TakesWhile side self.old self.new out.old out.new result }
    {
        let mut end = StepEnd::Still;
        while out.has_room() {
            match self.take(alloc, side, out) {
                StepEnd::Moved => end = StepEnd::Moved,
                StepEnd::Still => return end,
                StepEnd::NoMemory => return StepEnd::NoMemory,
            }
        }
        end
    }
}
