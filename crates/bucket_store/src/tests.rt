//! What no clause says: that rows are kept at all, and how long the chains are.

ghost use Rattle.std.specs.Prelude.{◌≡◌, length, IfOk};

use crate::hashing::key_hash;
use crate::{Bucket, Buckets};
use std::alloc::{AllocError, Global};
use std::test::Fail;
use tuple_core::{KeyRoom, Kind, Row, Value, bucket_of, parse_value, weight};

fn row_of_number(alloc: Global, number: i64) -> Result<Row, AllocError>
    ensures { IfOk result (λ row. length row ≡ 1) }
{
    Ok(Row::new(vec![in alloc; Value::Int(number)]?))
}

// The key of a row of one value, which is all key.
fn key_of(alloc: Global, row: &Row) -> Result<KeyRoom, AllocError>
    requires { length row.now ≡ 1 }
{
    let mut key = KeyRoom::new(alloc)?;
    key.write(row, &[0]);
    Ok(key)
}

// Writes the key of a row of the number.
fn write_key(alloc: Global, value: i64, key: &mut KeyRoom) -> Result<(), AllocError> {
    key.write(&row_of_number(alloc, value)?, &[0]);
    Ok(())
}

// Puts a row of the number, under the key of that row, which is written.
fn put(
    alloc: Global,
    buckets: &mut Buckets,
    key: &mut KeyRoom,
    value: i64,
    number: u64,
) -> Result<(), AllocError> {
    let row = row_of_number(alloc, value)?;
    key.write(&row, &[0]);
    let address = buckets.address(key);
    buckets.insert(alloc, &address, key.as_slice(), &row, number)
}

// The first place, at or after one, of the key in its bucket.
fn place_of(buckets: &Buckets, key: &KeyRoom, from: u32) -> Option<u32> {
    buckets.probe(&buckets.address(key), key.as_slice(), from)
}

// Where the key stands first among 0, 1, 2, 0, 1, 2 and so on, thirty in all, from a place on.
fn first_place(key: u32, from: u32) -> Option<u32> {
    for place in from..30 {
        if place % 3 == key {
            return Some(place);
        }
    }
    None
}

/// Keys 0, 1 and 2 in turn, 30 rows: each probe is compared with a search of the whole list.
#[test]
fn a_probe_finds_what_a_search_finds(rt: HostRuntime) -> Result<(), Fail> {
    let alloc = rt.alloc();
    let mut buckets = Buckets::new(alloc, 1)?;
    let mut room = KeyRoom::new(alloc)?;
    for number in 0..30u32 {
        put(
            alloc,
            &mut buckets,
            &mut room,
            i64::from(number % 3),
            u64::from(number),
        )?;
    }
    for key in 0..4u32 {
        write_key(alloc, i64::from(key), &mut room)?;
        for from in 0..40u32 {
            let found = place_of(&buckets, &room, from);
            assert_eq!(rt; found, first_place(key, from), "{key} from {from}");
        }
    }
    Ok(())
}

/// The integer 1 has bucket 8 of 16. Drained, it is empty and weighs nothing; what is handed on are its rows, and they
/// may be put back.
#[test]
fn a_drained_bucket_is_handed_on(rt: HostRuntime) -> Result<(), Fail> {
    let alloc = rt.alloc();
    let mut buckets = Buckets::new(alloc, 16)?;
    let mut room = KeyRoom::new(alloc)?;
    for number in 0..50u32 {
        put(
            alloc,
            &mut buckets,
            &mut room,
            i64::from(number % 5),
            u64::from(number),
        )?;
    }
    let row = row_of_number(alloc, 1)?;
    let key = key_of(alloc, &row)?;
    assert_eq!(rt; place_of(&buckets, &key, 0), Some(0));
    assert_eq!(rt; buckets.weights().get(8).copied(), Some(10 * weight(&row)));
    if buckets.count() <= 8 {
        return Err(Fail::from("too few buckets"));
    }
    let drained = buckets.drain_bucket(alloc, 8);
    assert_eq!(rt; place_of(&buckets, &key, 0), None);
    assert_eq!(rt; buckets.weights().get(8).copied(), Some(0));
    if drained.len() != 10 {
        return Err(Fail::from("not ten rows"));
    }
    assert_eq!(rt; drained.weight(), 10 * weight(&row));
    assert_eq!(rt; drained.entry(3).number(), 16);
    assert_eq!(rt; drained.row(3).to_row(alloc)?, row);
    buckets.restore(8, drained);
    assert_eq!(rt; place_of(&buckets, &key, 4), Some(4));
    assert_eq!(rt; buckets.weights().get(8).copied(), Some(10 * weight(&row)));
    Ok(())
}

/// Two keys of one length that have one hash, by which they share a bucket and a chain.
#[test]
fn keys_of_one_hash_are_kept_apart(rt: HostRuntime) -> Result<(), Fail> {
    let alloc = rt.alloc();
    let mut buckets = Buckets::new(alloc, 16)?;
    let texts = ["mvooxhed", "pcevaecc"];
    for (number, text) in texts.iter().enumerate() {
        let value = parse_value(alloc, Kind::Text, text.as_bytes())?;
        let row = Row::new(vec![in alloc; value.ok_or("no value")?]?);
        let key = key_of(alloc, &row)?;
        assert_eq!(rt; bucket_of(key.as_slice(), 16), 8, "{text}");
        assert_eq!(rt; key_hash(key.as_slice()), 231_492_432, "{text}");
        assert_eq!(rt; place_of(&buckets, &key, 0), None, "{text}");
        let address = buckets.address(&key);
        buckets.insert(alloc, &address, key.as_slice(), &row, number as u64)?;
        assert_eq!(rt; place_of(&buckets, &key, 0), Some(number as u32), "{text}");
    }
    Ok(())
}

/// One bucket of 100,000 keys, and one of as many rows of one key: each place is found at once.
#[test]
fn a_probe_does_not_search(rt: HostRuntime) -> Result<(), Fail> {
    let alloc = rt.alloc();
    let mut keys = Buckets::new(alloc, 1)?;
    let mut rows = Buckets::new(alloc, 1)?;
    let mut room = KeyRoom::new(alloc)?;
    for number in 0..100_000u32 {
        let value = i64::from(number);
        put(alloc, &mut keys, &mut room, value, u64::from(number))?;
        put(alloc, &mut rows, &mut room, 7, u64::from(number))?;
    }
    let seven = key_of(alloc, &row_of_number(alloc, 7)?)?;
    for number in 0..100_000u32 {
        write_key(alloc, i64::from(number), &mut room)?;
        assert_eq!(rt; place_of(&keys, &room, 0), Some(number));
        assert_eq!(rt; place_of(&rows, &seven, number), Some(number));
    }
    Ok(())
}

/// All integers below 100,000 as keys: no chain of a bucket is long.
#[test]
fn chains_stay_short(rt: HostRuntime) -> Result<(), Fail> {
    let alloc = rt.alloc();
    let mut buckets = Buckets::new(alloc, 256)?;
    let mut room = KeyRoom::new(alloc)?;
    for number in 0..100_000u32 {
        let value = i64::from(number);
        put(alloc, &mut buckets, &mut room, value, u64::from(number))?;
    }
    let longest = buckets.longest_chain(alloc)?;
    assert!(rt; longest >= 1 && longest <= 12, "{longest}");
    Ok(())
}

fn may_be_sent<T: Send>() {}

/// Buckets, and one that was drained, may be handed to another thread.
#[test]
fn buckets_are_sent(_rt: HostRuntime) {
    may_be_sent::<Buckets>();
    may_be_sent::<Bucket>();
}
