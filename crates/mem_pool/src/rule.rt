//! The word that all seats share, its rule, and the kinds of step that keep the rule.

use atomic_table::{Join, Play, Seat, Split, Table, TableRule};
use std::alloc::Global;

/// What a seat knows. No value of it is made: it stands in proofs alone.
pub struct SeatView {
    pub cap: u64,
    pub held: u64,
    pub pending: u64,
    pub may_split: u64,
    pub most: u64,
    pub peak: u64,
    pub takes: u64,
    /// 1, or 0 once the seat was joined to another.
    pub live: u64,
}

/// The rule: what all seats hold together fits the capacity.
pub struct Sharing;

impl TableRule<(), SeatView, u64> for Sharing {
    ghost use Rattle.mem_pool.specs.Rule.{PoolRule};
    ghost use Rattle.mem_pool.specs.Steps.{first_view};

    ghost holds = { PoolRule };

    ghost first = { first_view };
}

pub(crate) type Word = Table<(), SeatView, u64, Sharing, Global>;

pub(crate) type Place = Seat<(), SeatView>;

pub(crate) struct Taking;

impl Play<(), SeatView> for Taking {
    ghost use Rattle.mem_pool.specs.Steps.{Takes};

    ghost then = { Takes };
}

pub(crate) struct Undoing;

impl Play<(), SeatView> for Undoing {
    ghost use Rattle.mem_pool.specs.Steps.{Undoes};

    ghost then = { Undoes };
}

pub(crate) struct Releasing;

impl Play<(), SeatView> for Releasing {
    ghost use Rattle.mem_pool.specs.Steps.{Releases};

    ghost then = { Releases };
}

pub(crate) struct Looking;

impl Play<(), SeatView> for Looking {
    ghost use Rattle.mem_pool.specs.Steps.{Looks};

    ghost then = { Looks };
}

pub(crate) struct Sharers;

impl Split<SeatView> for Sharers {
    ghost use Rattle.mem_pool.specs.Steps.{left_view, new_view};

    ghost left = { left_view };

    ghost right = { new_view };
}

impl Join<SeatView> for Sharers {
    ghost use Rattle.mem_pool.specs.Steps.{joined_view, spent_view};

    ghost both = { joined_view };

    ghost spent = { spent_view };
}
