//! Sets of items, by their positions in their list.

ghost use Rattle.std.specs.Prelude.{◌≡◌, ◌-◌, ◌^◌, ◌<◌};
ghost use Rattle.least_order.specs.Sets.{is_in, with_position};

/// A set of items: bit `i` of the number is set where the item at position `i` is in it.
pub type ItemSet = usize;

/// The set of no item.
pub const NO_ITEM: ItemSet = 0;

/// The set of so many items.
pub fn all_items(count: usize) -> ItemSet
    requires { count < 64 }
    ensures { result ≡ 2 ^ count - 1 }
{
    (1 << count) - 1
}

/// Whether the item at the position is in the set.
pub fn contains(set: ItemSet, position: usize) -> bool
    requires { position < 64 }
    ensures { result ≡ is_in set position }
{
    set >> position & 1 == 1
}

/// The set and the item at the position.
pub fn with(set: ItemSet, position: usize) -> ItemSet
    requires { position < 64 }
    ensures { result ≡ with_position set position }
{
    set | 1 << position
}
