//! An order of least cost with what shows that it is one, and the check of that.

ghost use Rattle.std.specs.Prelude.{◌≡◌, ◌^◌, ◌<◌, ◌≤◌, ◌↔◌, IsTrue, length};
ghost use Rattle.least_order.specs.Certificates.{IsBelowSteps, IsBelowStepsFrom, IsCertificate};
ghost use Rattle.least_order.specs.Orders.{NoneCostsLess};

use crate::item::{Item, MOST_ITEMS};
use crate::item_set::{ItemSet, all_items, contains, with};
use crate::order::order_cost;
use crate::size::step;
use med_prelude::Listed;

/// An order of items that costs least, and the certificate of that.
#[derive(Debug, Drop)]
pub struct LeastOrder {
    /// The positions of the items, in the order in which they are joined.
    pub order: Listed<u8>,
    /// The sum of the sizes of what is joined.
    pub cost: u128,
    /// For each set of items, by its number, what is left to pay at least once these are placed: 2^n numbers for n items.
    pub rest: Listed<u128>,
}

/// Whether the certificate holds of the items. If so, no order of them costs less.
///
/// It looks at nothing but the certificate, whoever made it, and takes no memory.
pub fn check_order(items: &[Item], least: &LeastOrder) -> bool
    requires { length items.now ≤ MOST_ITEMS }
    ensures exact { IsTrue result ↔ IsCertificate items.now least.now }
    ensures least { IsTrue result → NoneCostsLess items.now least.now.cost }
{
    let rest = least.rest.as_slice();
    let all = all_items(items.len());
    order_cost(items, least.order.as_slice()) == Some(least.cost)
        && rest.len() == all + 1
        && rest[all] == 0
        && rest[0] == least.cost
        && is_below_steps(items, rest)
}

/// Whether no set's rest is more than a step and the rest after it.
fn is_below_steps(items: &[Item], rest: &[u128]) -> bool
    requires few { length items.now ≤ MOST_ITEMS }
    requires len { length rest.now ≡ 2 ^ length items.now }
    ensures { IsTrue result ↔ IsBelowSteps items.now rest.now }
{
    for set in 0..rest.len() {
        if !is_below_steps_from(items, rest, set) {
            return false;
        }
    }
    true
}

/// The same of one set.
fn is_below_steps_from(items: &[Item], rest: &[u128], set: ItemSet) -> bool
    requires few { length items.now ≤ MOST_ITEMS }
    requires len { length rest.now ≡ 2 ^ length items.now }
    requires set { set < 2 ^ length items.now }
    ensures { IsTrue result ↔ IsBelowStepsFrom items.now rest.now set }
{
    for position in 0..items.len() {
        if !contains(set, position) {
            let after = rest[with(set, position)];
            if rest[set] > step(items, set, position).saturating_add(after) {
                return false;
            }
        }
    }
    true
}
