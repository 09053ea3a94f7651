//! The rows of one side of a join that are in memory, bucket by bucket, found by their keys without a search.
//!
//! 1. [`Buckets::new`] makes so many empty buckets.
//! 2. [`Buckets::address`] tells where a key's rows are looked for, once for all calls about the key.
//!    [`Buckets::insert`] puts a row behind the others of its key's bucket: the key's bytes and the row's encoding lie
//!    together in the bucket's pages. It keeps with them the number with which the row came.
//! 3. [`Buckets::probe`] tells the next place of a key's bucket that has this key. [`Buckets::row_at`] reads the row
//!    there, and [`Buckets::entry`] its number.
//! 4. [`Buckets::weights`] tells how heavy each bucket is. [`Buckets::drain_bucket`] hands a bucket's rows on, whole,
//!    and [`Buckets::restore`] puts them back; neither takes memory.
//!
//! Contracts see, for each bucket, the list of its rows with their keys and numbers (`specs/Held.antt`). How they lie is
//! in `specs/Stored.antt`. The places of one key are found along a chain (`specs/Chained.antt`), which goes by a hash of
//! its own (`specs/Keys.antt`): the hash that chooses the bucket is alike for many keys of one bucket. An [`Address`] keeps
//! that hash of its key, so that it is worked out once; contracts see of an address its key and its bucket
//! (`specs/Addresses.antt`).
#![tactic(auto)]

mod address;
mod bucket;
mod buckets;
mod chains;
mod hashing;
#[cfg(test)]
mod tests;

pub use address::Address;
pub use bucket::{Bucket, Stored};
pub use buckets::{Buckets, GREATEST_TOTAL, constant_is_the_limit};
