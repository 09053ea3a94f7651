//! Rows in their order, each once, compared with lists by hand and a plain program.

use super::{row_of, rows_of};
use crate::{Rows, sorted_distinct};
use std::alloc::{AllocError, Global};
use std::test::Fail;
use tuple_core::{Row, row_order};

fn are_same(x: &Rows, y: &Rows) -> bool {
    x.len() == y.len() && (0..x.len()).all(|index| x.get(index) == y.get(index))
}

// The rows once more, each copied from where it lies.
fn copied(alloc: Global, rows: &Rows) -> Result<Rows, AllocError> {
    let mut copy = Rows::new(alloc);
    for row in rows.iter() {
        copy.push_encoded(alloc, &row)?;
    }
    Ok(copy)
}

// Lists of rows, and the same in order. The rows of the last share their first thirty bytes.
const LISTS: [(&str, &str); 4] = [
    (
        "10\n-3\n9223372036854775807\n0\n9\n-10\n-9223372036854775808\n10\n-1",
        "-9223372036854775808\n-10\n-3\n-1\n0\n9\n10\n9223372036854775807",
    ),
    (
        "b\nab\n\nabcdefghijklmnopr\na\nabcdefghijklmnopq\né\nb\nabcdefghijklmnop\n10a\n9a\nabcdefghijklmnopq\n\n",
        "\n10a\n9a\na\nab\nabcdefghijklmnop\nabcdefghijklmnopq\nabcdefghijklmnopr\nb\né",
    ),
    (
        "true\na|b\nab\na|-1\na\nfalse\n2|true\na|-1\n2\n2|false",
        "2\n2|false\n2|true\na\na|-1\na|b\nab\nfalse\ntrue",
    ),
    (
        "https://example.org/documents/b\nhttps://example.org/documents/|9\nhttps://example.org/documents/a|10\nhttps://example.org/documents/b\nhttps://example.org/documents/a|9\nhttps://example.org/documents/",
        "https://example.org/documents/\nhttps://example.org/documents/|9\nhttps://example.org/documents/a|9\nhttps://example.org/documents/a|10\nhttps://example.org/documents/b",
    ),
];

#[test]
fn sorts_rows(rt: HostRuntime) -> Result<(), Fail> {
    for (lines, wanted) in LISTS {
        let sorted = sorted_distinct(rt.alloc(), rows_of(rt.alloc(), lines)?)?;
        assert!(rt; are_same(&sorted, &rows_of(rt.alloc(), wanted)?), "{lines}");
    }
    Ok(())
}

// Rows of all kinds in their order.
const ASCENDING: &str =
    "-9223372036854775808\n-10\n-3\n-3|-1\n-3|a\n-3|false\n0\n9|true\n10\n9223372036854775807\n\na\na|-1\na|b\na|true\nab\nabcdefghijklmnop\nabcdefghijklmnopq\né\nfalse\ntrue";

fn stand_as_indices(rows: &Rows, x: usize, y: usize) -> bool {
    match (rows.get(x), rows.get(y)) {
        (Some(left), Some(right)) => left.cmp(&right) == x.cmp(&y) && (left == right) == (x == y),
        _ => false,
    }
}

#[test]
fn compares_rows_of_all_kinds_in_place(rt: HostRuntime) -> Result<(), Fail> {
    let rows = rows_of(rt.alloc(), ASCENDING)?;
    assert_eq!(rt; rows.len(), 21);
    for x in 0..rows.len() {
        for y in 0..rows.len() {
            assert!(rt; stand_as_indices(&rows, x, y), "{x} {y}");
        }
    }
    Ok(())
}

// A text of so many letters, and the number of them.
fn long_line(alloc: Global, letters: usize) -> Result<String, AllocError> {
    let mut line = format!(in alloc; "{letters}")?;
    for _ in 0..letters {
        line.push('a')?;
    }
    Ok(line)
}

fn long_rows(alloc: Global, lengths: &[usize]) -> Result<Rows, Fail> {
    let mut rows = Rows::new(alloc);
    for letters in lengths {
        let line = long_line(alloc, *letters)?;
        rows.push(alloc, &row_of(alloc, line.as_str())?)?;
    }
    Ok(rows)
}

// The rows of 65,530 letters are longer than a page.
#[test]
fn finds_repeats_in_different_pages(rt: HostRuntime) -> Result<(), Fail> {
    let rows = long_rows(rt.alloc(), &[60_000, 65_530, 60_001, 60_000, 9, 65_530])?;
    let sorted = sorted_distinct(rt.alloc(), rows)?;
    let wanted = long_rows(rt.alloc(), &[60_000, 60_001, 65_530, 9])?;
    assert!(rt; are_same(&sorted, &wanted));
    assert!(rt; are_same(&copied(rt.alloc(), &sorted)?, &wanted));
    Ok(())
}

fn put_in_order(sorted: &mut Vec<Row>, row: Row) -> Result<(), AllocError> {
    match sorted
        .iter()
        .position(|other| row_order(other, &row).is_ge())
    {
        None => sorted.push(row)?,
        Some(index) => {
            if row_order(&sorted[index], &row).is_gt() {
                sorted.insert(index, row)?;
            }
        }
    }
    Ok(())
}

// Some of which share their first 16 bytes.
const SOME: [&str; 16] = [
    "",
    "a",
    "ab",
    "abcdefghijklmnop",
    "abcdefghijklmnopq",
    "abcdefghijklmnopqr",
    "b|-9223372036854775808",
    "b|-10",
    "b|-9|true",
    "0|a",
    "9|a",
    "10|ab",
    "10|abcdefghijklmnopq",
    "true|a",
    "false|ab",
    "a|false",
];

// So many rows, one after another by a rule without an evident order.
fn some_rows(alloc: Global, count: u32) -> Result<Vec<Row>, Fail> {
    let mut rows = Vec::new(alloc);
    let mut number = 1u64;
    for _ in 0..count {
        number = number
            .wrapping_mul(6_364_136_223_846_793_005)
            .wrapping_add(1_442_695_040_888_963_407);
        rows.push(row_of(alloc, SOME[(number >> 60) as usize])?)?;
    }
    Ok(rows)
}

fn in_pages(alloc: Global, rows: &[Row]) -> Result<Rows, AllocError> {
    let mut pages = Rows::new(alloc);
    for row in rows {
        pages.push(alloc, row)?;
    }
    Ok(pages)
}

fn sorted_plainly(alloc: Global, rows: &[Row]) -> Result<Rows, AllocError> {
    let mut sorted = Vec::new(alloc);
    for row in rows {
        put_in_order(&mut sorted, row.clone()?)?;
    }
    in_pages(alloc, sorted.as_slice())
}

#[test]
fn sorts_as_the_plain_program_does(rt: HostRuntime) -> Result<(), Fail> {
    for count in [0, 1, 2, 19, 300] {
        let rows = some_rows(rt.alloc(), count)?;
        let wanted = sorted_plainly(rt.alloc(), rows.as_slice())?;
        let sorted = sorted_distinct(rt.alloc(), in_pages(rt.alloc(), rows.as_slice())?)?;
        assert!(rt; are_same(&sorted, &wanted), "{count} rows");
    }
    Ok(())
}
