//! What an order costs.

ghost use Rattle.std.specs.Prelude.{◌≡◌, ◌≤◌, ◌↔◌, length, IsSome, IfSome};
ghost use Rattle.least_order.specs.Orders.{IsOrder, cost_of};

use crate::item::{Item, MOST_ITEMS};
use crate::item_set::{NO_ITEM, all_items, contains, with};
use crate::size::step;

/// What the order costs, or nothing where it doesn't have each item once.
pub fn order_cost(items: &[Item], order: &[u8]) -> Option<u128>
    requires { length items.now ≤ MOST_ITEMS }
    ensures order { IsSome result ↔ IsOrder (length items.now) order.now }
    ensures cost { IfSome result (λ cost. cost ≡ cost_of items.now order.now) }
{
    let mut placed = NO_ITEM;
    let mut cost = 0;
    for position in order {
        let position = usize::from(*position);
        if position >= items.len() || contains(placed, position) {
            return None;
        }
        cost += step(items, placed, position);
        placed = with(placed, position);
    }
    if placed == all_items(items.len()) {
        Some(cost)
    } else {
        None
    }
}
