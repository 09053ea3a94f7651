//! What no clause says: expected texts, bytes and numbers by hand, and that each call gives an answer.

ghost use Rattle.std.specs.Prelude.{IfOk};
ghost use Rattle.tuple_core.specs.Values.{FitsValue};

use super::*;
use std::alloc::{AllocError, Global};
use std::test::Fail;

// Whole numbers and truth values stand for themselves, and every other field is a text.
fn value_of(alloc: Global, field: &str) -> Result<Value, Fail>
    ensures { IfOk result FitsValue }
{
    for kind in [Kind::Int, Kind::Bool] {
        if let Some(value) = parse_value(alloc, kind, field.as_bytes())? {
            return Ok(value);
        }
    }
    Ok(parse_value(alloc, Kind::Text, field.as_bytes())?.ok_or("no value")?)
}

// The row whose fields stand between bars.
fn row_of(alloc: Global, line: &str) -> Result<Row, Fail> {
    let mut values = Vec::new(alloc);
    for field in line.split('|') {
        if values.len() == Row::MOST_VALUES {
            return Err(Fail::from("too many values"));
        }
        values.push(value_of(alloc, field)?)?;
    }
    Ok(Row::new(values))
}

#[test]
fn reads_and_writes_values(rt: HostRuntime) -> Result<(), Fail> {
    for (kind, text, written) in [
        (Kind::Int, "0", "0"),
        (Kind::Int, "-0", "0"),
        (Kind::Int, "007", "7"),
        (Kind::Int, "-007", "-7"),
        (Kind::Int, "9223372036854775807", "9223372036854775807"),
        (Kind::Int, "-9223372036854775808", "-9223372036854775808"),
        (Kind::Int, "000000000000000000000000000000000001", "1"),
        (Kind::Bool, "true", "true"),
        (Kind::Bool, "false", "false"),
        (Kind::Text, "", ""),
        (Kind::Text, "-0", "-0"),
    ] {
        let value = parse_value(rt.alloc(), kind, text.as_bytes())?.ok_or("no value")?;
        let mut bytes = Vec::new(rt.alloc());
        text_of(value.seen(), &mut bytes)?;
        assert_eq!(rt; bytes.as_slice(), written.as_bytes(), "{text}");
    }
    Ok(())
}

#[test]
fn reads_no_other_texts(rt: HostRuntime) -> Result<(), Fail> {
    for text in [
        "",
        "-",
        "+1",
        "--1",
        " 1",
        "1 ",
        "1a",
        "a",
        "9223372036854775808",
        "-9223372036854775809",
        "99999999999999999999",
    ] {
        assert!(rt;
            parse_value(rt.alloc(), Kind::Int, text.as_bytes())?.is_none(),
            "{text}"
        );
    }
    for text in ["", "True", "true ", "0", "1"] {
        assert!(rt;
            parse_value(rt.alloc(), Kind::Bool, text.as_bytes())?.is_none(),
            "{text}"
        );
    }
    assert!(rt; parse_value(rt.alloc(), Kind::Text, b"\xFF")?.is_none());
    for (length, is_text) in [(65_536, true), (65_537, false)] {
        let text = vec![in rt.alloc(); b'a'; length]?;
        assert_eq!(rt;
            parse_value(rt.alloc(), Kind::Text, text.as_slice())?.is_some(),
            is_text
        );
    }
    Ok(())
}

#[test]
fn reads_numerals_up_to_their_most(rt: HostRuntime) {
    for (digits, most, number) in [
        ("0", 0, Some(0)),
        ("007", 7, Some(7)),
        ("008", 7, None),
        ("", 7, None),
        ("-0", 7, None),
        ("+7", 7, None),
        ("18446744073709551615", u64::MAX, Some(u64::MAX)),
        ("18446744073709551616", u64::MAX, None),
    ] {
        assert_eq!(rt; numeral(digits.as_bytes(), most), number, "{digits}");
    }
}

#[test]
fn copies_columns_and_reads_their_fields(rt: HostRuntime) -> Result<(), Fail> {
    let mut columns = Columns::new(rt.alloc());
    for (name, kind) in [("id", Kind::Int), ("name", Kind::Text)] {
        let name = Text::from_str(rt.alloc(), name)?;
        columns.push(Column { name, kind })?;
    }
    let copies = columns.clone()?;
    assert_eq!(rt; copies.as_slice(), columns.as_slice());
    for (column, has_value) in copies.as_slice().iter().zip([false, true]) {
        assert_eq!(rt;
            field_value(rt.alloc(), column, b"rome")?.is_some(),
            has_value
        );
    }
    Ok(())
}

// Each line's encoding, and its bucket among 16.
const ENCODINGS: [(&str, &[u8], u32); 5] = [
    ("1", b"\x01\x01\0\0\0\0\0\0\0\x01", 8),
    ("-2", b"\x01\x01\xFF\xFF\xFF\xFF\xFF\xFF\xFF\xFE", 6),
    ("paris", b"\x01\x02\0\0\0\x05paris", 14),
    ("false", b"\x01\x03\0", 7),
    (
        "-2|paris|true",
        b"\x03\x01\xFF\xFF\xFF\xFF\xFF\xFF\xFF\xFE\x02\0\0\0\x05paris\x03\x01",
        6,
    ),
];

#[test]
fn encodes_rows_and_reads_them_back(rt: HostRuntime) -> Result<(), Fail> {
    for (line, encoding, bucket) in ENCODINGS {
        let row = row_of(rt.alloc(), line)?;
        let mut bytes = Vec::new(rt.alloc());
        encode(rt.alloc(), &row, &mut bytes)?;
        let read = decode(rt.alloc(), encoding, 0)?;
        let is_written = bytes.as_slice() == encoding && weight(&row) == encoding.len() as u64;
        let is_read_back = read == (row, encoding.len());
        assert!(rt;
            is_written && is_read_back && bucket_of(encoding, 16) == bucket,
            "{line}"
        );
    }
    Ok(())
}

#[test]
fn writes_the_key_of_no_values(rt: HostRuntime) -> Result<(), Fail> {
    let mut room = KeyRoom::new(rt.alloc())?;
    assert!(rt; room.capacity() >= 4_194_625);
    room.write(&row_of(rt.alloc(), "1|paris")?, &[]);
    let key = room.as_slice();
    assert_eq!(rt; key, b"\0".as_slice());
    assert_eq!(rt; (hash(key), bucket_of(key, 16), hash(b"")), (217, 9, 7));
    Ok(())
}

// Where the row that begins at the offset ends, if one does.
fn end_of_row(alloc: Global, bytes: &[u8], at: usize) -> Option<usize> {
    match decode(alloc, bytes, at) {
        Ok((_, after)) => Some(after),
        Err(fault) => (fault != DecodeFault::Bad { at }).then_some(0),
    }
}

#[test]
fn refuses_what_is_no_encoding(rt: HostRuntime) {
    for (bytes, at, why) in [
        (b"".as_slice(), 0, "no bytes"),
        (b"\0", 1, "past the end"),
        (b"\0", usize::MAX, "far past the end"),
        (b"\x01\x04\0", 0, "a kind that there is not"),
        (b"\x01\0", 0, "no kind"),
        (b"\x01\x03\x02", 0, "neither false nor true"),
        (b"\x01\x02\0\0\0\x01\xFF", 0, "not UTF-8"),
        (b"\x01\x02\0\0\0\x05pari", 0, "cut in a text"),
        (b"\x01\x02\0\0\0", 0, "cut in a length"),
        (b"\x01\x01\0\0\0\0\0\0\0", 0, "cut in an integer"),
        (b"\x02\x03\x01", 0, "a value is missing"),
    ] {
        assert!(rt; end_of_row(rt.alloc(), bytes, at).is_none(), "{why}");
    }
}

// What begins the bytes, and then so many times what follows.
fn repeated(alloc: Global, begin: &[u8], more: &[u8], count: u32) -> Result<Vec<u8>, AllocError> {
    let mut bytes = Vec::from_slice(alloc, begin)?;
    for _ in 0..count {
        bytes.extend_from_slice(more)?;
    }
    Ok(bytes)
}

#[test]
fn decodes_up_to_the_limits(rt: HostRuntime) -> Result<(), Fail> {
    for (begin, more, count, end) in [
        (b"\0".as_slice(), b"".as_slice(), 0, Some(1)),
        (b"\x40", b"\x03\x01", 64, Some(129)),
        (b"\x41", b"\x03\x01", 65, None),
        (b"\x01\x02\0\x01\0\0", b"a", 65_537, Some(65_542)),
        (b"\x01\x02\0\x01\0\x01", b"a", 65_537, None),
    ] {
        let bytes = repeated(rt.alloc(), begin, more, count)?;
        assert_eq!(rt; end_of_row(rt.alloc(), bytes.as_slice(), 0), end);
    }
    Ok(())
}

#[test]
fn compares_values_of_one_kind(rt: HostRuntime) -> Result<(), Fail> {
    for (op, x, y, wanted) in [
        (Op::Lt, "2", "10", true),
        (Op::Lt, "2", "2", false),
        (Op::Le, "2", "2", true),
        (Op::Ge, "2", "2", true),
        (Op::Ne, "2", "10", true),
        (Op::Gt, "true", "false", true),
        (Op::Lt, "paris", "rome", true),
        (Op::Eq, "rome", "rome", true),
        (Op::Ne, "1", "true", false),
        (Op::Lt, "1", "paris", false),
    ] {
        let (left, right) = (value_of(rt.alloc(), x)?, value_of(rt.alloc(), y)?);
        assert_eq!(rt; compare(op, left.seen(), right.seen()), wanted, "{x} {y}");
    }
    Ok(())
}
