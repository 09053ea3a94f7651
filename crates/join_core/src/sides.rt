//! The rows of both sides, and which of them a call means.

ghost use Rattle.std.specs.Prelude.{◌≡◌, ◌<◌, ◌+◌, ◌^◌, [], length, replicate, slice_index_or, IfOk, IfSome, OnOk, OnErr};
ghost use Rattle.tuple_core.specs.Hashing.{bucket_of};
ghost use Rattle.tuple_core.specs.Values.{FitsRow};
ghost use Rattle.bucket_store.specs.Held.{has_key, no_row, rows_in, weights_of, with_row};
ghost use Rattle.bucket_store.specs.Addresses.{address_of};
ghost use Rattle.bucket_store.specs.Places.{next_place};
ghost use Rattle.join_core.specs.Sides.{buckets_on, opposite, with_buckets};

use bucket_store::{Address, Buckets, Stored};
use row_match::Side;
use std::alloc::{AllocError, Global};
use std::marker::Model;
use tuple_core::Row;

#[derive(Debug, Drop)]
pub(crate) struct Sides {
    left: Buckets,
    right: Buckets,
}

impl Model for Sides {
    ghost use Rattle.join_core.specs.Sides.{TwoSides};

    ghost Value = { TwoSides };

    ghost view = { λ s. record { left = s.left; right = s.right } };
}

/// The other side.
pub(crate) fn opposite(side: Side) -> Side
    ensures { result ≡ opposite side }
{
    match side {
        Side::Left => Side::Right,
        Side::Right => Side::Left,
    }
}

impl Sides {
    pub(crate) fn new(alloc: Global, buckets: u32) -> Result<Sides, AllocError>
        requires { 0 < buckets }
        ensures { IfOk result (λ sides. sides ≡ record { left = replicate buckets []; right = replicate buckets [] }) }
    {
        Ok(Sides {
            left: Buckets::new(alloc, buckets)?,
            right: Buckets::new(alloc, buckets)?,
        })
    }

    pub(crate) fn on(&self, side: Side) -> &Buckets
        ensures { result.now ≡ buckets_on side self.now }
    {
        match side {
            Side::Left => &self.left,
            Side::Right => &self.right,
        }
    }

    pub(crate) fn insert(
        &mut self,
        alloc: Global,
        side: Side,
        address: &Address,
        key: &[u8],
        row: &Row,
        number: u64,
    ) -> Result<(), AllocError>
        requires { address.now ≡ address_of (length (buckets_on side self.old)) key.now }
        ensures ok { OnOk result (self.new ≡ with_buckets side self.old (with_row (buckets_on side self.old) (record { key = key.now; row = row.now; number = number }))) }
        ensures fits { FitsRow row.now }
        ensures err { OnErr result (self.new ≡ self.old) }
    {
        match side {
            Side::Left => self.left.insert(alloc, address, key, row, number),
            Side::Right => self.right.insert(alloc, address, key, row, number),
        }
    }
}
