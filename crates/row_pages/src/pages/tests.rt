//! What no clause says: that short byte strings share a page, and so what a kept row costs.

use super::{PAGE, Pages, Spot};
use std::test::Fail;
use tuple_core::{Row, Value};

// The lengths of byte strings that are put one after another, and the page of each.
const PUT: [(usize, u32); 7] = [
    (30_000, 0),
    (35_536, 0),
    (1, 1),
    (65_537, 2),
    (0, 1),
    (65_535, 1),
    (1, 3),
];

#[test]
fn short_byte_strings_share_a_page(rt: HostRuntime) -> Result<(), Fail> {
    let mut pages = Pages::new(rt.alloc());
    let mut piece = Vec::new(rt.alloc());
    for (length, page) in PUT {
        piece.resize(length, 7)?;
        assert_eq!(rt; pages.put(rt.alloc(), piece.as_slice())?.page, page);
    }
    Ok(())
}

// The encoding of such a row has 10 bytes, so 6,553 of them lie in one page.
#[test]
fn a_row_costs_its_encoding_and_its_spot(rt: HostRuntime) -> Result<(), Fail> {
    let mut pages = Pages::new(rt.alloc());
    let row = Row::new(vec![in rt.alloc(); Value::Int(7)]?);
    for number in 0..6_554u32 {
        let spot = pages.put_row(rt.alloc(), &[], &row)?;
        assert_eq!(rt; spot.page, number / 6_553);
    }
    for page in &pages.pages {
        assert_eq!(rt; page.bytes.capacity(), PAGE);
    }
    assert_eq!(rt; std::mem::size_of::<Spot>(), 12);
    Ok(())
}
