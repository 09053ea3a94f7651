//! The first order of least cost, by the rest of each set of items.

ghost use Rattle.std.specs.Prelude.{◌≡◌, ◌^◌, ◌<◌, ◌≤◌, IfOk, length};
ghost use Rattle.least_order.specs.Certificates.{IsCertificate};
ghost use Rattle.least_order.specs.Orders.{IsOrder, NoneCostsLess, IsFirstAtCost, cost_of};
ghost use Rattle.least_order.specs.Search.{AreLeast, IsBestSoFar, IsBounded, LeadsBest, lesser_of};

use crate::certificate::LeastOrder;
use crate::item::{Item, MOST_ITEMS};
use crate::item_set::{ItemSet, NO_ITEM, all_items, contains, with};
use crate::size::step;
use med_prelude::Listed;
use std::alloc::{AllocError, Global};

/// The first of the orders that cost least, as a list of positions, with the certificate of that.
///
/// For 8 items about a thousand sizes of sets are computed. An `Err` comes only where memory runs out.
pub fn least_order(alloc: Global, items: &[Item]) -> Result<LeastOrder, AllocError>
    requires { length items.now ≤ MOST_ITEMS }
    ensures order { IfOk result (λ least. IsOrder (length items.now) least.order) }
    ensures cost { IfOk result (λ least. least.cost ≡ cost_of items.now least.order) }
    ensures least { IfOk result (λ least. NoneCostsLess items.now least.cost) }
    ensures first { IfOk result (λ least. IsFirstAtCost items.now least.cost least.order) }
    ensures certificate { IfOk result (λ least. IsCertificate items.now least) }
{
    let rest = least_rest(alloc, items)?;
    let order = order_along(alloc, items, &rest)?;
    Ok(LeastOrder {
        order: Listed::from_vec(order),
        cost: rest[NO_ITEM],
        rest: Listed::from_vec(rest),
    })
}

/// An item to place next, and what is left to pay by it.
#[derive(Clone, Copy)]
struct Next {
    position: usize,
    cost: u128,
}

/// For each set of items the least that is left to pay, the largest sets first.
fn least_rest(alloc: Global, items: &[Item]) -> Result<Vec<u128>, AllocError>
    requires { length items.now ≤ MOST_ITEMS }
    ensures len { IfOk result (λ rest. length rest.items ≡ 2 ^ length items.now) }
    ensures least { IfOk result (λ rest. AreLeast items.now rest.items 0) }
    ensures bounded { IfOk result (λ rest. IsBounded rest.items) }
{
    let sets = all_items(items.len()) + 1;
    let mut rest = vec![in alloc; 0; sets]?;
    for set in (0..sets).rev() {
        let least = match first_best(items, &rest, set) {
            Some(next) => next.cost,
            None => 0,
        };
        rest[set] = least;
    }
    Ok(rest)
}

/// The order that takes at each place the first of the items by which the rest costs least.
fn order_along(alloc: Global, items: &[Item], rest: &[u128]) -> Result<Vec<u8>, AllocError>
    requires few { length items.now ≤ MOST_ITEMS }
    requires len { length rest.now ≡ 2 ^ length items.now }
    requires bounded { IsBounded rest.now }
    ensures { IfOk result (λ order. LeadsBest items.now rest.now 0 order.items) }
{
    let mut order = Vec::new(alloc);
    let mut placed = NO_ITEM;
    while let Some(next) = first_best(items, rest, placed) {
        order.push(next.position as u8)?;
        placed = with(placed, next.position);
    }
    Ok(order)
}

/// The first of the items outside the set by which the rest costs least, or nothing where each item is in it.
fn first_best(items: &[Item], rest: &[u128], set: ItemSet) -> Option<Next>
    requires few { length items.now ≤ MOST_ITEMS }
    requires len { length rest.now ≡ 2 ^ length items.now }
    requires set { set < 2 ^ length items.now }
    requires bounded { IsBounded rest.now }
    ensures { IsBestSoFar items.now rest.now set (length items.now) result }
{
    let mut best: Option<Next> = None;
    for position in 0..items.len() {
        if !contains(set, position) {
            let cost = step(items, set, position) + rest[with(set, position)];
            best = Some(lesser(best, Next { position, cost }));
        }
    }
    best
}

/// The one that costs less; the first where they cost the same.
fn lesser(best: Option<Next>, next: Next) -> Next
    ensures { result ≡ lesser_of best next }
{
    match best {
        Some(best) if best.cost <= next.cost => best,
        _ => next,
    }
}
