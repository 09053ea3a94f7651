//! The net, and its steps.

ghost use Rattle.std.specs.Prelude.{◌≡◌, true};
ghost use Rattle.step_core.specs.Steps.{ListActs, ListTurn, NetRuns, NetSteps, is_last_edge};
ghost use Rattle.step_core.specs.Standing.{NetStands};
ghost use Rattle.step_core.specs.Wholes.{HasAnswered};
ghost use Rattle.step_core.specs.Work.{Falls, net_left};

use crate::actor::{Actor, StepEnd};
use crate::edge::Edge;
use crate::node::Node;
use med_base::Source;
use row_pages::Rows;
use std::alloc::Global;
use std::marker::Model;

/// The operators of one fragment, with the edges between them, and the rows that it gave so far.
#[derive(Drop)]
pub struct Net<S: Source> {
    pub(crate) tree: Node<S>,
    pub(crate) edge: Edge,
    pub(crate) rows: Rows,
}

impl<S: Source> Model for Net<S> {
    ghost use Rattle.std.specs.Coded.{codes};
    ghost use Rattle.step_core.specs.Coded.{net_code};
    ghost use Rattle.step_core.specs.Nets.{NetState};
    ghost use Rattle.step_core.specs.Standing.{NetStands};
    ghost use Rattle.step_core.specs.Viewed.{tree_of};

    ghost Value = { NetState S };

    ghost coded = { net_code (Prim.hlevel (codes, S.code)) (Prim.hlevel codes) (Prim.hlevel codes) };

    ghost view = { λ n. record { tree = tree_of n.tree; edge = n.edge; rows = n.rows } };

    ghost invariant = { λ n. NetStands S.Source (record { tree = tree_of n.tree; edge = n.edge; rows = n.rows }) };
}

impl<S: Source> Net<S> {
    /// One step of an actor. An actor that isn't in the net has nothing to do.
    pub fn step(&mut self, alloc: Global, actor: Actor) -> StepEnd
        ensures stands { NetStands S.Source self.new }
        ensures steps { NetSteps S.Source actor self.old self.new result }
        ensures falls { Falls result (net_left S.Source self.old) (net_left S.Source self.new) }
    {
        if self.is_last_edge(actor) {
            return self.list_turn(alloc);
        }
        match self.tree.step(alloc, actor, &mut self.edge) {
            Some(end) => end,
            None => StepEnd::Still,
        }
    }

    // The turn of the list at the end of the last edge.
    pub(crate) fn list_turn(&mut self, alloc: Global) -> StepEnd
        ensures stands { NetStands S.Source self.new }
        ensures acts { ListActs self.old self.new result }
        ensures falls { Falls result (net_left S.Source self.old) (net_left S.Source self.new) }
    {
        list_step(alloc, &mut self.rows, &mut self.edge)
    }

    fn is_last_edge(&self, actor: Actor) -> bool
        ensures { result ≡ is_last_edge actor self.now }
    {
        matches!(actor, Actor::Edge(name) if self.tree.is_called(name))
    }

    /// What holds of each net, for callers' proofs: it stands, and where the end was taken of the last edge, its rows are
    /// what the atoms' accepted rows give. It does nothing.
    pub fn stands(&self)
        ensures stands { NetStands S.Source self.now }
        ensures answered { self.now.edge.taken ≡ true → HasAnswered S.Source self.now }
    {
        let _edge = &self.edge;
    }

    /// Steps of these actors, in their order, up to the first want of memory, which is told; else whether one moved.
    pub fn run(&mut self, alloc: Global, schedule: &[Actor]) -> StepEnd
        ensures stands { NetStands S.Source self.new }
        ensures runs { NetRuns S.Source schedule.now self.old self.new result }
        ensures answered { self.new.edge.taken ≡ true → HasAnswered S.Source self.new }
        ensures falls { Falls result (net_left S.Source self.old) (net_left S.Source self.new) }
    {
        self.stands();
        let mut end = StepEnd::Still;
        for actor in schedule {
            match self.step(alloc, *actor) {
                StepEnd::Moved => end = StepEnd::Moved,
                StepEnd::Still => {}
                StepEnd::NoMemory => return StepEnd::NoMemory,
            }
        }
        end
    }
}

// The first row of the last edge is taken into the list; where none waits, the end. Where memory runs out, the row
// goes back.
fn list_step(alloc: Global, rows: &mut Rows, edge: &mut Edge) -> StepEnd
    ensures { ListTurn rows.old rows.new edge.old edge.new result }
{
    let Some(row) = edge.rows.pop_front() else {
        if !edge.ends() {
            return StepEnd::Still;
        }
        edge.take_end();
        return StepEnd::Moved;
    };
    if rows.push(alloc, &row).is_err() {
        edge.rows.push_front_reserved(row);
        return StepEnd::NoMemory;
    }
    StepEnd::Moved
}
