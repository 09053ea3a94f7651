//! The laws that say what the linked parts of items are, and how many items there are at most.

ghost use Rattle.std.specs.Prelude.{◌≡◌, ℕ, List, flat_map, sum_by};
ghost use Rattle.std.specs.List.{AllByRecursion};
ghost use Rattle.least_order.specs.declared.item.Item.{Item};
ghost use Rattle.least_order.specs.Items.{most_items};
ghost use Rattle.least_order.specs.Parts.{AreAllApart, HasItem, IsLinked};
ghost use Rattle.least_order.specs.Sizes.{parts_of};

use crate::item::MOST_ITEMS;

/// The parts of items are their linked parts: each part has an item, together they have each item once, whatever it
/// weighs, any two items of one part are linked by a chain in it, and items of two parts share no variable.
pub fn parts_are_linked()
    ensures full { (items : List Item) → AllByRecursion HasItem (parts_of items) }
    ensures whole { (items : List Item) (weight : Item → ℕ) → sum_by weight (flat_map (λ part. part) (parts_of items))
        ≡ sum_by weight items }
    ensures linked { (items : List Item) → AllByRecursion IsLinked (parts_of items) }
    ensures apart { (items : List Item) → AreAllApart (parts_of items) }
{}

/// The constant is the limit on which the definitions rest.
pub fn constant_is_the_limit()
    ensures { MOST_ITEMS ≡ most_items }
{}
