//! The hash by which a bucket's rows are chained.

ghost use Rattle.std.specs.Prelude.{◌≡◌};
ghost use Rattle.bucket_store.specs.Keys.{key_hash, spread};

const SPREADING: u64 = 0x9E37_79B9_7F4A_7C15;

const MIXING: u64 = 0xD6E8_FEB8_6659_FD93;

fn spread(bytes: &[u8]) -> u64
    ensures { result ≡ spread bytes.now }
{
    let mut hash = 7u64;
    for byte in bytes {
        hash = hash.wrapping_add(u64::from(*byte)).wrapping_mul(SPREADING);
    }
    hash
}

/// A hash of which each bit depends on all bytes of the key.
pub(crate) fn key_hash(key: &[u8]) -> u32
    ensures { result ≡ key_hash key.now }
{
    let spread = spread(key);
    (spread.wrapping_add(spread >> 32).wrapping_mul(MIXING) >> 32) as u32
}
