//! The greedy order: at each place the best of the items that are left.

ghost use Rattle.std.specs.Prelude.{◌≡◌, ◌≤◌, IfOk, length, MatchOption};
ghost use Rattle.least_order.specs.Greedy.{IsGreedyNext, IsGreedyOrder};
ghost use Rattle.least_order.specs.Merging.{is_better_than, joined_vars};
ghost use Rattle.least_order.specs.Orders.{IsOrder, Order};
ghost use Rattle.least_order.specs.Search.{HasNoneLeft};
ghost use Rattle.least_order.specs.Sets.{members};

use crate::item::{Item, MOST_ITEMS};
use crate::item_set::{ItemSet, NO_ITEM, contains, with};
use med_prelude::Listed;
use std::alloc::{AllocError, Global};

/// The greedy order of the items: the one of least count first, and then, of those that share a variable with the ones
/// placed, or of all where none does, the one of least count. Of equal ones it takes the first.
///
/// The answer has the items' positions. An `Err` comes only where memory runs out.
pub fn greedy_order(alloc: Global, items: &[Item]) -> Result<Listed<u8>, AllocError>
    requires { length items.now ≤ MOST_ITEMS }
    ensures order { IfOk result (λ order. IsOrder (length items.now) order) }
    ensures greedy { IfOk result (λ order. IsGreedyOrder items.now order) }
    // There is no other such order.
    ensures only { IfOk result (λ order. (other : Order) → IsOrder (length items.now) other
        → IsGreedyOrder items.now other → order ≡ other) }
{
    let mut order = Listed::new(alloc);
    let mut placed = NO_ITEM;
    while let Some(position) = greedy_next(items, placed) {
        order.push(position as u8)?;
        placed = with(placed, position);
    }
    Ok(order)
}

/// The best of the items outside the set, or nothing where each item is in it.
fn greedy_next(items: &[Item], placed: ItemSet) -> Option<usize>
    requires { length items.now ≤ MOST_ITEMS }
    ensures { MatchOption result (HasNoneLeft (length items.now) placed) (IsGreedyNext items.now placed) }
{
    let vars = vars_of(items, placed);
    let mut best: Option<usize> = None;
    for position in 0..items.len() {
        if !contains(placed, position) {
            best = match best {
                Some(first) if !is_better(&items[position], &items[first], vars) => Some(first),
                _ => Some(position),
            };
        }
    }
    best
}

/// Whether an item is taken before an earlier one: it alone has one of the variables, or they are alike in that and it
/// has the lesser count.
fn is_better(item: &Item, earlier: &Item, vars: u64) -> bool
    ensures { result ≡ is_better_than vars item.now earlier.now }
{
    match (item.vars & vars != 0, earlier.vars & vars != 0) {
        (true, false) => true,
        (false, true) => false,
        _ => item.count < earlier.count,
    }
}

/// The variables of the items in the set.
fn vars_of(items: &[Item], set: ItemSet) -> u64
    requires { length items.now ≤ MOST_ITEMS }
    ensures { result ≡ joined_vars (members items.now set) }
{
    let mut vars = 0;
    for position in (0..items.len()).rev() {
        if contains(set, position) {
            vars |= items[position].vars;
        }
    }
    vars
}
