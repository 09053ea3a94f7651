//! The hash of bytes, and the bucket that a key belongs to.

ghost use Rattle.std.specs.Prelude.{◌≡◌, ◌<◌};
ghost use Rattle.tuple_core.specs.Hashing.{bucket_of, byte_hash};

/// The hash by which keys are put into buckets: a key's bytes are the encoding of the row of its values.
pub fn hash(bytes: &[u8]) -> u64
    ensures { result ≡ byte_hash bytes.now }
{
    let mut hash = 7u64;
    for byte in bytes {
        hash = hash.wrapping_mul(31).wrapping_add(u64::from(*byte));
    }
    hash
}

/// The number of the key's bucket among so many, which are numbered from 0.
pub fn bucket_of(key: &[u8], buckets: u32) -> u32
    requires { 0 < buckets }
    ensures bucket { result ≡ bucket_of buckets key.now }
    ensures inside { result < buckets }
{
    (hash(key) % u64::from(buckets)) as u32
}
