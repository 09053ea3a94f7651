//! Where a catalogue is broken, and the least location of a check that each relation has its own items for.

ghost use Rattle.std.specs.Prelude.{◌≡◌, ℕ, List, nat_le, option_map, IfOk};
ghost use Rattle.cat_reader.specs.Locations.{in_each, is_up_to, item_of, where_order};
ghost use Rattle.text_reading.specs.Order.{least};

use std::alloc::{AllocError, Global};
use text_reading::{Ordered, lesser};

/// The index of a relation, and that of its column or group. Each is 0 where the fault is of none.
#[derive(Clone, Copy, Debug, PartialEq, Eq)]
pub struct Where {
    pub relation: usize,
    pub item: usize,
}

/// By relation, and then by item.
impl Ordered for Where {
    ghost up_to = { is_up_to };

    ghost order = { where_order };

    fn is_up_to(self, other: Where) -> bool {
        self.relation < other.relation
            || (self.relation == other.relation && self.item <= other.item)
    }
}

/// A check of relations, or of what says them: each may break it at several of its items.
pub trait ItemCheck<T> {
    ghost broken_in: { T → List ℕ };

    /// The index of the least item that is broken.
    fn least_broken(alloc: Global, one: &T) -> Result<Option<usize>, AllocError>
        ensures { IfOk result (λ item. item ≡ least nat_le (broken_in one.now)) };
}

/// The location of an item in the relation at an index.
pub fn item_of(relation: usize, item: Option<usize>) -> Option<Where>
    ensures { result ≡ option_map (item_of relation) item }
{
    match item {
        Some(item) => Some(Where { relation, item }),
        None => None,
    }
}

/// The least location that breaks the check.
pub fn least_in_each<T, C: ItemCheck<T>>(
    alloc: Global,
    all: &[T],
) -> Result<Option<Where>, AllocError>
    ensures { IfOk result (λ found. found ≡ least is_up_to (in_each C.broken_in 0 all.now)) }
{
    let mut so_far = None;
    for (index, one) in all.iter().enumerate() {
        so_far = lesser(so_far, item_of(index, C::least_broken(alloc, one)?));
    }
    Ok(so_far)
}
