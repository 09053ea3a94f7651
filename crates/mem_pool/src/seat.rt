//! A seat of a pool.

use crate::rule::Place;
use std::marker::Model;

/// What a thread takes memory with. It has no bytes, and may go to another thread.
///
/// A seat that is dropped keeps what it holds and its place among the seats, and its pool can't be closed.
#[derive(Drop)]
pub struct PoolSeat {
    pub(crate) place: Place,
}

impl Model for PoolSeat {
    ghost use Rattle.mem_pool.specs.Seats.{IsResting, Seated, seated_of};

    ghost Value = { Seated };

    ghost view = { λ s. seated_of s.place.table_id s.place.me.0 };

    ghost invariant = { λ s. IsResting s.place.me };
}
