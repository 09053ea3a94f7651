//! An atom of a net: its collector.

ghost use Rattle.std.specs.Prelude.{◌≡◌, ◌<◌, false, length};
ghost use Rattle.std.specs.List.{position};
ghost use Rattle.collect_core.specs.Members.{is_named};
ghost use Rattle.med_prelude.specs.Counts.{greatest_count};
ghost use Rattle.collect_core.specs.Steps.{gave};
ghost use Rattle.step_core.specs.Edges.{PutsRows};
ghost use Rattle.step_core.specs.Leaves.{ClosesLeaf, Pulls, TakesHeld, end_by};

use crate::actor::StepEnd;
use crate::edge::Edge;
use collect_core::{AtomCollector, Collected};
use med_base::{MemberName, Source};
use std::alloc::Global;
use std::marker::Model;

/// An atom's collector.
#[derive(Drop)]
pub struct LeafNode<S: Source> {
    pub(crate) atom: u32,
    pub(crate) collector: AtomCollector<S>,
}

impl<S: Source> Model for LeafNode<S> {
    ghost use Rattle.step_core.specs.Nets.{LeafState};

    ghost Value = { LeafState S };

    ghost view = { λ l. record { atom = l.atom; collecting = l.collector } };
}

impl<S: Source> LeafNode<S> {
    pub(crate) fn atom(&self) -> u32
        ensures { result ≡ self.now.atom }
    {
        self.atom
    }

    /// The index of the member of that name, if it is there.
    pub(crate) fn find(&self, name: MemberName) -> Option<usize>
        ensures { result ≡ position (is_named name) self.now.collecting.members }
    {
        self.collector.find(name)
    }

    /// One step of a member; its row goes out.
    pub(crate) fn pull(&mut self, alloc: Global, index: usize, out: &mut Edge) -> StepEnd
        requires { index < length self.old.collecting.members }
        ensures { Pulls S.Source self.old self.new index out.old out.new result }
    {
        if out.closed() {
            return StepEnd::Still;
        }
        if out.reserve().is_err() {
            return StepEnd::NoMemory;
        }
        let collected = self.collector.step(alloc, index);
        // For the proof; it does nothing.
        self.collector.stands();
        send(collected, out)
    }

    /// The next row that a member holds goes out. Its source isn't pulled.
    pub(crate) fn accept(&mut self, alloc: Global, index: usize, out: &mut Edge) -> StepEnd
        requires inside { index < length self.old.collecting.members }
        requires goes_on { out.old.put ≡ false }
        ensures { TakesHeld S.Source self.old self.new index out.old out.new result }
    {
        if out.reserve().is_err() {
            return StepEnd::NoMemory;
        }
        let collected = self.collector.accept(alloc, index);
        // For the proof; it does nothing.
        self.collector.stands();
        send(collected, out)
    }

    /// Puts the mark that no more rows will come, where each group is settled.
    pub(crate) fn close(&mut self, out: &mut Edge) -> StepEnd
        ensures { ClosesLeaf self.old self.new out.old out.new result }
    {
        if out.closed() || !self.collector.finished() {
            return StepEnd::Still;
        }
        out.close();
        StepEnd::Moved
    }
}

// What a collector gave goes out.
fn send(collected: Collected, out: &mut Edge) -> StepEnd
    requires room { 0 < out.old.room }
    requires few { out.old.given < greatest_count }
    ensures end { result ≡ end_by collected }
    ensures put { PutsRows out.old out.new (gave collected) }
{
    match collected {
        Collected::Row(row) => {
            out.put(row);
            StepEnd::Moved
        }
        Collected::Moved => StepEnd::Moved,
        Collected::Still => StepEnd::Still,
        Collected::NoMemory => StepEnd::NoMemory,
    }
}
