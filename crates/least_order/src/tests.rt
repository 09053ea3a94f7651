//! Orders and certificates, with expected values by hand, and against all orders of many small lists.

ghost use Rattle.std.specs.Prelude.{◌≤◌, length};

use super::*;
use med_prelude::Listed;
use std::alloc::{AllocError, Global};
use std::process::Abort;
use std::test::Fail;

const NOTHING: Item = Item { count: 0, vars: 0 };

fn item(count: u64, vars: u64) -> Item {
    Item { count, vars }
}

// The least order, what it costs, and the greedy order.
fn orders_so(
    rt: &impl Abort,
    alloc: Global,
    items: &[Item],
    order: &[u8],
    cost: u128,
    greedy: &[u8],
) -> Result<(), Fail>
    requires { length items.now ≤ MOST_ITEMS }
{
    let least = least_order(alloc, items)?;
    assert_eq!(rt; least.order.as_slice(), order);
    assert_eq!(rt; least.cost, cost);
    assert!(rt; check_order(items, &least));
    assert_eq!(rt; greedy_order(alloc, items)?.as_slice(), greedy);
    Ok(())
}

#[test]
fn orders_by_hand(rt: HostRuntime) -> Result<(), Fail> {
    let alloc = rt.alloc();
    // Two items that share nothing come first: 1 * 2, and then all are one part: 100. Greedily linked ones come first.
    orders_so(
        &rt,
        alloc,
        &[item(1, 0b01), item(100, 0b11), item(2, 0b10)],
        &[0, 2, 1],
        102,
        &[0, 1, 2],
    )?;
    orders_so(&rt, alloc, &[], &[], 0, &[])?;
    orders_so(&rt, alloc, &[item(7, 0b1)], &[0], 0, &[0])?;
    // Ties: the first as a list, 5 + 5.
    orders_so(
        &rt,
        alloc,
        &[item(5, 0b1), item(5, 0b1), item(5, 0b1)],
        &[0, 1, 2],
        10,
        &[0, 1, 2],
    )?;
    // Products: 3 * 2, and then 3 * 2 * 4. Greedily the least count comes first.
    orders_so(
        &rt,
        alloc,
        &[item(3, 0), item(2, 0), item(4, 0)],
        &[0, 1, 2],
        30,
        &[1, 0, 2],
    )?;
    // A linked item is taken before one of a lesser count; 2 + 18 against 9 + 18.
    orders_so(
        &rt,
        alloc,
        &[item(1, 0b01), item(2, 0b10), item(9, 0b01)],
        &[0, 1, 2],
        20,
        &[0, 2, 1],
    )?;
    orders_so(&rt, alloc, &[item(0, 0), item(7, 0)], &[0, 1], 0, &[0, 1])?;
    // Sizes are cut off at 2^60: of a product, and of one part.
    orders_so(
        &rt,
        alloc,
        &[item(1 << 40, 0), item(1 << 40, 0), item(1 << 30, 0)],
        &[0, 1, 2],
        1 << 61,
        &[2, 0, 1],
    )?;
    orders_so(
        &rt,
        alloc,
        &[item(1 << 62, 0b1), item(3, 0b1)],
        &[0, 1],
        1 << 60,
        &[1, 0],
    )?;
    let most = item(u64::MAX, 0);
    orders_so(
        &rt,
        alloc,
        &[most, most, most, most, most, most, most, most],
        &[0, 1, 2, 3, 4, 5, 6, 7],
        7 << 60,
        &[0, 1, 2, 3, 4, 5, 6, 7],
    )?;
    // A chain: a set of k items has size k at least, and has it where it is the last k. 2 + 3 + .. + 8.
    orders_so(
        &rt,
        alloc,
        &[
            item(8, 0b0_0000_0011),
            item(7, 0b0_0000_0110),
            item(6, 0b0_0000_1100),
            item(5, 0b0_0001_1000),
            item(4, 0b0_0011_0000),
            item(3, 0b0_0110_0000),
            item(2, 0b0_1100_0000),
            item(1, 0b1_1000_0000),
        ],
        &[6, 7, 5, 4, 3, 2, 1, 0],
        35,
        &[7, 6, 5, 4, 3, 2, 1, 0],
    )
}

// Whether the certificate of the first example is accepted.
fn is_accepted(alloc: Global, order: &[u8], cost: u128, rest: &[u128]) -> Result<bool, AllocError> {
    let items = [item(1, 0b01), item(100, 0b11), item(2, 0b10)];
    let least = LeastOrder {
        order: Listed::from_vec(Vec::from_slice(alloc, order)?),
        cost,
        rest: Listed::from_vec(Vec::from_slice(alloc, rest)?),
    };
    Ok(check_order(&items, &least))
}

#[test]
fn certificates_by_hand(rt: HostRuntime) -> Result<(), Fail> {
    let alloc = rt.alloc();
    // Once a pair is placed, the third item makes it 100; from item 1 on, both steps cost 100.
    let accepted = [
        is_accepted(
            alloc,
            &[0, 2, 1],
            102,
            &[102, 102, 200, 100, 102, 100, 100, 0],
        )?,
        // Another order of that cost, and rests that are too low where that breaks no step.
        is_accepted(
            alloc,
            &[2, 0, 1],
            102,
            &[102, 102, 150, 100, 102, 100, 50, 0],
        )?,
    ];
    assert_eq!(rt; accepted.as_slice(), [true, true].as_slice());
    let refused = [
        // The least cost is claimed to be less, with the rest of no item.
        is_accepted(
            alloc,
            &[0, 2, 1],
            101,
            &[101, 102, 200, 100, 102, 100, 100, 0],
        )?,
        // An order that costs more.
        is_accepted(
            alloc,
            &[0, 1, 2],
            200,
            &[102, 102, 200, 100, 102, 100, 100, 0],
        )?,
        // The rest of one item is one too low.
        is_accepted(
            alloc,
            &[0, 2, 1],
            102,
            &[102, 101, 200, 100, 102, 100, 100, 0],
        )?,
        // The rest of two items is one too high.
        is_accepted(
            alloc,
            &[0, 2, 1],
            102,
            &[102, 102, 200, 101, 102, 100, 100, 0],
        )?,
        // Something is left to pay once all are placed.
        is_accepted(
            alloc,
            &[0, 2, 1],
            102,
            &[102, 102, 200, 100, 102, 100, 100, 1],
        )?,
        // A set's rest is missing, and one is there too often.
        is_accepted(alloc, &[0, 2, 1], 102, &[102, 102, 200, 100, 102, 100, 100])?,
        is_accepted(
            alloc,
            &[0, 2, 1],
            102,
            &[102, 102, 200, 100, 102, 100, 100, 0, 0],
        )?,
        is_accepted(alloc, &[0, 2, 1], 102, &[])?,
        // An item twice, one that isn't placed, one that isn't there.
        is_accepted(
            alloc,
            &[0, 2, 2],
            102,
            &[102, 102, 200, 100, 102, 100, 100, 0],
        )?,
        is_accepted(alloc, &[0, 2], 2, &[102, 102, 200, 100, 102, 100, 100, 0])?,
        is_accepted(
            alloc,
            &[0, 2, 3],
            102,
            &[102, 102, 200, 100, 102, 100, 100, 0],
        )?,
        // A step and a rest that are past the greatest number together.
        is_accepted(
            alloc,
            &[0, 2, 1],
            102,
            &[102, 102, 200, u128::MAX, 102, 100, 100, 0],
        )?,
    ];
    assert!(rt; refused.iter().all(|accepted| !*accepted));
    Ok(())
}

// The size of items, by labels that spread along shared variables.
fn plain_size(items: &[Item]) -> u128
    requires { length items.now ≤ MOST_ITEMS }
{
    let mut labels: [usize; MOST_ITEMS] = [0, 1, 2, 3, 4, 5, 6, 7];
    for _ in 0..items.len() {
        for i in 0..items.len() {
            for j in 0..items.len() {
                if items[i].vars & items[j].vars != 0 && labels[i] < labels[j] {
                    labels[j] = labels[i];
                }
            }
        }
    }
    let mut product = 1u128;
    for label in 0..items.len() {
        let mut greatest = None;
        for i in 0..items.len() {
            if labels[i] == label {
                greatest = Some(items[i].count.max(greatest.unwrap_or(0)));
            }
        }
        product = product
            .saturating_mul(u128::from(greatest.unwrap_or(1)))
            .min(1 << 60);
    }
    product
}

fn plain_cost(items: &[Item], order: &[u8]) -> u128
    requires { length order.now ≤ MOST_ITEMS }
{
    let mut placed = [NOTHING; MOST_ITEMS];
    let mut cost = 0u128;
    for (index, position) in order.iter().enumerate() {
        placed[index] = items
            .get(usize::from(*position))
            .copied()
            .unwrap_or(NOTHING);
        if index > 0 {
            cost = cost.saturating_add(plain_size(&placed[..index + 1]));
        }
    }
    cost
}

// The next order in the order of lists, if there is one.
fn advance(order: &mut [u8]) -> bool {
    for i in (1..order.len()).rev() {
        if order[i - 1] < order[i] {
            for j in (i..order.len()).rev() {
                if order[i - 1] < order[j] {
                    order.swap(i - 1, j);
                    order[i..].reverse();
                    return true;
                }
            }
        }
    }
    false
}

// Whether the least order is the first of all orders that cost least.
fn is_first_of_all(alloc: Global, items: &[Item]) -> Result<bool, AllocError>
    requires { length items.now ≤ 6 }
{
    let mut all = [0, 1, 2, 3, 4, 5];
    let order = &mut all[..items.len()];
    let mut first = Vec::from_slice(alloc, order)?;
    let mut cost = plain_cost(items, order);
    for _ in 0..720 {
        if !advance(order) {
            break;
        }
        let next = plain_cost(items, order);
        if next < cost {
            cost = next;
            first = Vec::from_slice(alloc, order)?;
        }
    }
    let least = least_order(alloc, items)?;
    Ok(
        least.order.as_slice() == first.as_slice()
            && least.cost == cost
            && check_order(items, &least),
    )
}

#[test]
fn first_of_all_orders(rt: HostRuntime) -> Result<(), Fail> {
    let alloc = rt.alloc();
    let mut state = 0x9e37_79b9_7f4a_7c15u64;
    for list in 0..1000usize {
        let mut items = [NOTHING; 6];
        for i in 0..6 {
            state = state
                .wrapping_mul(6_364_136_223_846_793_005)
                .wrapping_add(1_442_695_040_888_963_407);
            items[i] = item((state >> 33) % 9, (state >> 40) & (state >> 48) & 0b11111);
        }
        assert!(rt; is_first_of_all(alloc, &items[..list % 6 + 1])?);
    }
    Ok(())
}
