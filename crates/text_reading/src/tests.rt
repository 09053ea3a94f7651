//! The faults that are told, and the pieces of texts, by hand.

use crate::{
    Broken, begins_blank, begins_integer, broken_if, digit_run, index_past, integer_run, is_blank,
    least, lesser, name_in, name_run, quoted_text, told_first,
};
use med_prelude::Text;
use std::test::Fail;

#[test]
fn the_least_counts(rt: HostRuntime) {
    assert_eq!(rt; least([7u64, 3, 5].as_slice()), Some(3));
    assert_eq!(rt; least::<u64>([].as_slice()), None);
    assert_eq!(rt; lesser(Some(4u64), Some(9)), Some(4));
    assert_eq!(rt; lesser(None, Some(9u64)), Some(9));
    assert_eq!(rt; index_past(16, 17), Some(16));
    assert_eq!(rt; index_past(16, 16), None);
    assert_eq!(rt; broken_if(true, 5u64), Some(5));
}

#[test]
fn the_first_broken_check_counts(rt: HostRuntime) {
    let later = told_first(3, Some(2u64), None);
    assert_eq!(rt;
        told_first(2, Some(8), later),
        Some(Broken { why: 2, at: 8 })
    );
    assert_eq!(rt; told_first(2, None, later), Some(Broken { why: 3, at: 2 }));
    assert_eq!(rt; told_first::<u64>(2, None, None), None);
}

#[test]
fn runs_are_whole(rt: HostRuntime) {
    assert_eq!(rt; name_run(b"ab_9-c".as_slice()), 4);
    assert_eq!(rt; name_run(b"-".as_slice()), 0);
    assert_eq!(rt; digit_run(b"0129x".as_slice()), 4);
    assert_eq!(rt; integer_run(b"-012 ".as_slice()), 4);
    assert_eq!(rt; integer_run(b"12-3".as_slice()), 2);
    assert_eq!(rt; integer_run(b"-".as_slice()), 1);
    assert!(rt; begins_integer(b'-') && begins_integer(b'0') && !begins_integer(b'+'));
    assert!(rt; is_blank(b'\t') && is_blank(b'\r') && !is_blank(0x0b));
    assert!(rt; begins_blank(b" a".as_slice()) && !begins_blank(b"a ".as_slice()));
    assert!(rt; !begins_blank(b"".as_slice()));
}

#[test]
fn names_have_64_bytes_at_most(rt: HostRuntime) -> Result<(), Fail> {
    let alloc = rt.alloc();
    let longest = [b'n'; 64];
    let name = name_in(alloc, longest.as_slice())?.ok_or("no name")?;
    assert_eq!(rt; name.as_bytes(), longest.as_slice());
    assert_eq!(rt; name_in(alloc, [b'n'; 65].as_slice())?, None);
    assert_eq!(rt; name_in(alloc, b"false".as_slice())?, None);
    assert_eq!(rt;
        name_in(alloc, b"false1".as_slice())?,
        Some(Text::from_str(alloc, "false1")?)
    );
    Ok(())
}

#[test]
fn a_doubled_quote_stands_for_one(rt: HostRuntime) -> Result<(), Fail> {
    let alloc = rt.alloc();
    let (text, taken) = quoted_text(alloc, b"a\"\"b\" \"".as_slice())?.ok_or("no text")?;
    assert_eq!(rt; text.as_slice(), b"a\"b".as_slice());
    assert_eq!(rt; taken, 5);
    let (text, taken) = quoted_text(alloc, b"\"".as_slice())?.ok_or("no text")?;
    assert!(rt; text.is_empty());
    assert_eq!(rt; taken, 1);
    assert!(rt; quoted_text(alloc, b"ab\"\"".as_slice())?.is_none());
    assert!(rt; quoted_text(alloc, b"".as_slice())?.is_none());
    Ok(())
}
