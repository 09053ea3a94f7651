//! Where a key's rows are looked for.

ghost use Rattle.std.specs.Prelude.{◌≡◌, ◌<◌};
ghost use Rattle.bucket_store.specs.Addresses.{address_of};
ghost use Rattle.bucket_store.specs.Keys.{key_hash};

use crate::hashing::key_hash;
use std::marker::Model;
use std::snapshot::Snapshot;
use tuple_core::{KeyRoom, bucket_of};

/// Where a key's rows are looked for. It is worked out once for a key, and is the same on each side of as many buckets.
/// Contracts see the key and its bucket. Of the key it keeps the hash by which the bucket's rows are chained.
#[derive(Drop)]
#[derive_where(Debug)]
pub struct Address {
    bucket: u32,
    hash: u32,
    // Which key it is: it takes no memory, and only contracts read it.
    #[derive_where(skip)]
    key: Snapshot<KeyRoom>,
}

impl Model for Address {
    ghost use Rattle.std.specs.Prelude.{◌≡◌};
    ghost use Rattle.bucket_store.specs.Addresses.{KeyAddress};
    ghost use Rattle.bucket_store.specs.Keys.{key_hash};

    ghost Value = { KeyAddress };

    ghost view = { λ a. record { key = a.key.value; bucket = a.bucket } };

    ghost invariant = { λ a. a.hash ≡ key_hash a.key.value };
}

impl Address {
    /// That of a key, among so many buckets.
    pub(crate) fn of(key: &KeyRoom, buckets: u32) -> Address
        requires { 0 < buckets }
        ensures { result ≡ address_of buckets key.now }
    {
        Address {
            bucket: bucket_of(key.as_slice(), buckets),
            hash: key_hash(key.as_slice()),
            key: Snapshot::of(key),
        }
    }

    /// The bucket in which the key's rows lie.
    pub fn bucket(&self) -> u32
        ensures { result ≡ self.now.bucket }
    {
        self.bucket
    }

    /// The hash of the key, as it was worked out.
    pub(crate) fn hash(&self) -> u32
        ensures { result ≡ key_hash self.now.key }
    {
        self.hash
    }
}
