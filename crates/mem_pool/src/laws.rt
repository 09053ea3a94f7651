//! The constants beside the definitions.

ghost use Rattle.std.specs.Prelude.{◌≡◌};
ghost use Rattle.mem_pool.specs.Rule.{greatest_capacity, greatest_take, most_seats};

use crate::pool::Pool;

/// The constants are the limits on which the rule rests.
pub fn constants_are_the_limits()
    ensures capacity { Pool.GREATEST_CAPACITY ≡ greatest_capacity }
    ensures take { Pool.GREATEST_TAKE ≡ greatest_take }
    ensures seats { Pool.MOST_SEATS ≡ most_seats }
{}
