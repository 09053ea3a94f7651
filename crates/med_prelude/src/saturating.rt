//! Counts that only rise, and stand still at the greatest number of their type.

ghost use Rattle.std.specs.Prelude.{◌≡◌, ◌+◌, min};
ghost use Rattle.med_prelude.specs.Counts.{greatest_count};

/// The count after one more.
pub fn raise(count: u64) -> u64
    ensures { result ≡ min (count + 1) greatest_count }
{
    count.saturating_add(1)
}
