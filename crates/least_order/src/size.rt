//! How many rows a join of some items is taken to have.

ghost use Rattle.std.specs.Prelude.{◌≡◌, ◌+◌, ◌<◌, ◌≤◌, length, min, take};
ghost use Rattle.least_order.specs.Certificates.{step_of};
ghost use Rattle.least_order.specs.Sizes.{greatest_size, size_of};
ghost use Rattle.least_order.specs.Merging.{joined, merged_parts, product_of_counts};

use crate::item::{Item, MOST_ITEMS};
use crate::item_set::{ItemSet, NO_ITEM, contains, with};

/// No size is counted as more than this.
const GREATEST_SIZE: u128 = 1 << 60;

/// What it costs to place one more item, which isn't in the set of those placed.
pub fn step(items: &[Item], set: ItemSet, position: usize) -> u128
    requires few { length items.now ≤ MOST_ITEMS }
    requires position { position < length items.now }
    ensures { result ≡ step_of items.now set position }
{
    if set == NO_ITEM {
        0
    } else {
        size(items, with(set, position))
    }
}

/// The size of a set of items: each linked part counts as its greatest item, and the parts make a product.
pub fn size(items: &[Item], set: ItemSet) -> u128
    requires { length items.now ≤ MOST_ITEMS }
    ensures { result ≡ size_of items.now set }
{
    let mut parts = [Item { count: 0, vars: 0 }; MOST_ITEMS];
    let mut len = 0;
    for position in (0..items.len()).rev() {
        if contains(set, position) {
            len = merge(&mut parts, len, items[position]);
        }
    }
    capped_product(&parts[..len])
}

/// Makes one part of the item and of those of the first `len` parts that share a variable with it.
///
/// A part is kept as one item, with its greatest count and all its variables. The result is how many parts there are then.
fn merge(parts: &mut [Item], len: usize, item: Item) -> usize
    requires { len < length parts.old }
    ensures parts { take result parts.new ≡ merged_parts item (take len parts.old) }
    ensures few { result ≤ len + 1 }
{
    let mut merged = item;
    let mut kept = 0;
    for index in 0..len {
        let part = parts[index];
        if part.shares_variable(&item) {
            merged = join(&merged, &part);
        } else {
            parts[kept] = part;
            kept += 1;
        }
    }
    parts[kept] = merged;
    kept + 1
}

/// Two parts as one.
fn join(part: &Item, other: &Item) -> Item
    ensures { result ≡ joined part.now other.now }
{
    Item {
        count: part.count.max(other.count),
        vars: part.vars | other.vars,
    }
}

/// The product of the parts' counts, cut off at the greatest size.
fn capped_product(parts: &[Item]) -> u128
    ensures { result ≡ min greatest_size (product_of_counts parts.now) }
{
    let mut product = 1;
    for part in parts {
        product = GREATEST_SIZE.min(product * u128::from(part.count));
    }
    product
}
