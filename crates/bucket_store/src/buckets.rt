//! All buckets of a side.

ghost use Rattle.std.specs.Prelude.{◌≡◌, ◌+◌, ◌<◌, ◌≤◌, ◌^◌, [], length, replicate, set, slice_index_or, IfOk, IfSome, OnOk, OnErr};
ghost use Rattle.std.specs.List.{sum};
ghost use Rattle.tuple_core.specs.Hashing.{bucket_of};
ghost use Rattle.tuple_core.specs.Values.{FitsRow};
ghost use Rattle.bucket_store.specs.Held.{ArePlaced, BelongTo, greatest_total, has_key, no_row, rows_in, rows_weight, weights_of, with_row};
ghost use Rattle.bucket_store.specs.Addresses.{address_of};
ghost use Rattle.bucket_store.specs.Places.{next_place};

use crate::address::Address;
use crate::bucket::{Bucket, Stored};
use std::alloc::{AllocError, Global};
use std::marker::Model;
use std::mem;
use tuple_core::{KeyRoom, Row, weight};

/// The most that all rows of a side weigh.
pub const GREATEST_TOTAL: u64 = 1 << 60;

/// The constant is the limit of the contracts.
pub fn constant_is_the_limit()
    ensures { GREATEST_TOTAL ≡ greatest_total }
{}

/// The rows of a side. Contracts see, for each bucket, the list of its rows with their keys and numbers.
#[derive(Debug, Drop)]
pub struct Buckets {
    buckets: Vec<Bucket>,
    // How heavy each bucket is, and all of them.
    weights: Vec<u64>,
    total: u64,
}

impl Model for Buckets {
    ghost use Rattle.std.specs.Prelude.{List};
    ghost use Rattle.bucket_store.specs.Held.{HeldList};
    ghost use Rattle.bucket_store.specs.Stored.{AreKept};

    ghost Value = { List HeldList };

    ghost view = { λ b. b.buckets.items };

    ghost invariant = { λ b. AreKept b.buckets.items b.weights.items b.total };
}

impl Buckets {
    /// So many buckets without rows.
    pub fn new(alloc: Global, count: u32) -> Result<Buckets, AllocError>
        requires { 0 < count }
        ensures { IfOk result (λ buckets. buckets ≡ replicate count []) }
    {
        let mut buckets = Vec::with_capacity(alloc, count as usize)?;
        for _ in 0..count {
            buckets.push(Bucket::new(alloc))?;
        }
        let weights = vec![in alloc; 0u64; count as usize]?;
        Ok(Buckets {
            buckets,
            weights,
            total: 0,
        })
    }

    /// How many buckets there are.
    pub fn count(&self) -> u32
        ensures count { result ≡ length self.now }
        ensures placed { ArePlaced self.now }
    {
        self.buckets.len() as u32
    }

    /// Where the key's rows are looked for.
    pub fn address(&self, key: &KeyRoom) -> Address
        ensures { result ≡ address_of (length self.now) key.now }
    {
        Address::of(key, self.count())
    }

    /// Puts a copy of a row behind the others of its key's bucket. Where memory runs out, nothing has changed. So it is
    /// too where the bucket has 2^32 - 1 rows, where a row with its key has 2^32 bytes, and where all rows together
    /// would weigh more than [`GREATEST_TOTAL`].
    pub fn insert(
        &mut self,
        alloc: Global,
        address: &Address,
        key: &[u8],
        row: &Row,
        number: u64,
    ) -> Result<(), AllocError>
        requires { address.now ≡ address_of (length self.old) key.now }
        ensures ok { OnOk result (self.new ≡ with_row self.old (record { key = key.now; row = row.now; number = number })) }
        ensures fits { FitsRow row.now }
        ensures err { OnErr result (self.new ≡ self.old) }
    {
        let weight = weight(row);
        if weight > GREATEST_TOTAL - self.total {
            return Err(AllocError);
        }
        let bucket = address.bucket() as usize;
        self.buckets[bucket].push(alloc, key, address.hash(), row, number)?;
        self.weights[bucket] += weight;
        self.total += weight;
        Ok(())
    }

    /// The first place, at or after one, of the key's bucket at which a row has this key.
    pub fn probe(&self, address: &Address, key: &[u8], from: u32) -> Option<u32>
        requires { address.now ≡ address_of (length self.now) key.now }
        ensures next { result ≡ next_place (has_key key.now) (rows_in self.now (bucket_of (length self.now) key.now)) from }
        ensures few { IfSome result (λ place. place + 1 < 2 ^ 32) }
    {
        self.buckets[address.bucket() as usize].next(key, address.hash(), from as usize)
    }

    /// Where a row lies, and its number.
    pub fn entry(&self, bucket: u32, place: u32) -> &Stored
        requires bucket { bucket < length self.now }
        requires place { place < length (rows_in self.now bucket) }
        ensures { result.now.number ≡ (slice_index_or (rows_in self.now bucket) place no_row).number }
    {
        self.buckets[bucket as usize].entry(place as usize)
    }

    /// The row at a place, with its own memory.
    pub fn row_at(&self, alloc: Global, bucket: u32, place: u32) -> Result<Row, AllocError>
        requires bucket { bucket < length self.now }
        requires place { place < length (rows_in self.now bucket) }
        ensures { IfOk result (λ row. row ≡ (slice_index_or (rows_in self.now bucket) place no_row).row) }
    {
        self.buckets[bucket as usize]
            .row(place as usize)
            .to_row(alloc)
    }

    /// How heavy each bucket is: the bytes of its rows' encodings, without their keys.
    pub fn weights(&self) -> &[u64]
        ensures weights { result.now ≡ weights_of self.now }
        ensures light { sum (weights_of self.now) ≤ greatest_total }
    {
        self.weights.as_slice()
    }

    /// Hands the rows of a bucket on, and leaves it empty. It takes no memory. They may be put back by `restore`.
    pub fn drain_bucket(&mut self, alloc: Global, bucket: u32) -> Bucket
        requires { bucket < length self.old }
        ensures rows { result ≡ rows_in self.old bucket }
        ensures left { self.new ≡ set self.old bucket [] }
        ensures empty { rows_in self.new bucket ≡ [] }
        ensures placed { BelongTo (length self.new) bucket result }
        ensures light { sum (weights_of self.new) + rows_weight result ≤ greatest_total }
    {
        let bucket = bucket as usize;
        self.total -= self.weights[bucket];
        self.weights[bucket] = 0;
        mem::replace(&mut self.buckets[bucket], Bucket::new(alloc))
    }

    /// Puts rows into a bucket that is empty, as after `drain_bucket`. It takes no memory.
    pub fn restore(&mut self, bucket: u32, rows: Bucket)
        requires inside { bucket < length self.old }
        requires empty { rows_in self.old bucket ≡ [] }
        requires placed { BelongTo (length self.old) bucket rows }
        requires light { sum (weights_of self.old) + rows_weight rows ≤ greatest_total }
        ensures { self.new ≡ set self.old bucket rows }
    {
        let bucket = bucket as usize;
        self.weights[bucket] = rows.weight();
        self.total += rows.weight();
        self.buckets[bucket] = rows;
    }
}

#[cfg(test)]
impl Buckets {
    /// How many rows the longest chain of any bucket has.
    pub(crate) fn longest_chain(&self, alloc: Global) -> Result<usize, AllocError> {
        let mut longest = 0;
        for bucket in self.buckets.iter() {
            longest = longest.max(bucket.longest_chain(alloc)?);
        }
        Ok(longest)
    }
}
