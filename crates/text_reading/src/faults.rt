//! What breaks a check in a list of items.

ghost use Rattle.std.specs.Prelude.{◌≡◌, nat_le, nat_lt};
ghost use Rattle.text_reading.specs.Faults.{broken_if};
ghost use Rattle.text_reading.specs.Order.{least};

use crate::checks::Ordered;

/// It, where it is broken.
pub fn broken_if<P: Ordered>(is_broken: bool, at: P) -> Option<P>
    ensures { result ≡ least P.up_to (broken_if is_broken at) }
{
    if is_broken { Some(at) } else { None }
}

/// The index of the first item past the limit, where so many are too many.
pub fn index_past(limit: usize, count: usize) -> Option<usize>
    ensures { result ≡ least nat_le (broken_if (nat_lt limit count) limit) }
{
    broken_if(limit < count, limit)
}
