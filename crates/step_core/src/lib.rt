//! A net: the operators of one fragment, and the edges between them. Whoever runs a net makes steps, in any order.
//!
//! 1. [`Net::new`] makes the net of a plan, of its tree of joins, its [`NetAtom`]s and its [`NetJoin`]s; or
//!    [`FreshTree`] makes the operators one by one, and [`Net::over`] the net of them.
//! 2. [`Net::give`] gives a fresh source to a member of one of its atoms; `opening_failed` says that there is none.
//! 3. [`Net::step`] is one step of an [`Actor`]: a member is pulled, an operator takes an item of an edge, or says that
//!    no more rows will come. [`Net::run`] makes the steps of a schedule.
//! 4. Without a schedule: [`Net::read_members`] lets each member make a step and give what it holds, and [`Net::drain`]
//!    lets all that waits go on, from the atoms to the list; the two together are a pass.
//! 5. `given`, `closed`, `member` and `starved` tell how operators, members and groups stand; [`Net::finished`] whether
//!    all rows were given, `rows` which.
//! 6. [`Net::into_parts`] gives the members' ends and the rows.
//!
//! Definitions: `specs/Nets.antt` says what a net is, and `specs/Edges.antt` what an edge is and promises;
//! `specs/Standing.antt` that a net stands, which is its invariant, and `specs/Same.antt` that its operators are the same;
//! `specs/Planting.antt` and `Plans` what is made of a plan; `specs/Joins.antt` and `Leaves` what a join and an atom do in their turn, `specs/Names.antt` which of them an
//! actor means, and `specs/Steps.antt` what a step is; `specs/Going.antt` what many turns do, and `specs/Passes.antt` what
//! a pass does, of the parts in `specs/Parts.antt`; `specs/Work.antt` what is left to do; `specs/Wholes.antt` what a
//! finished net has given; `specs/Members.antt` how members get their sources. [`Net::stands`] has what holds of each net,
//! for callers' proofs.
#![tactic(auto)]

mod actor;
mod edge;
mod growing;
mod join_node;
mod leaf_node;
mod members;
mod net;
mod node;
mod passes;
mod planting;
#[cfg(test)]
mod tests;

pub use actor::{Actor, StepEnd, Turn};
pub use edge::Edge;
pub use join_node::JoinNode;
pub use leaf_node::LeafNode;
pub use members::NetParts;
pub use net::Net;
pub use node::Node;
pub use planting::{FreshTree, NetAtom, NetJoin};
