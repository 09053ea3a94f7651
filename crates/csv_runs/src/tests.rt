//! Runs with expected values by hand, and their records beside those of each frame alone.

use crate::records::record_of;
use crate::{RunReader, run_length};
use csv::ByteRecord;
use csv_frame::LONGEST_FRAME;
use std::test::Fail;

fn has_fields(record: &ByteRecord, fields: &[&[u8]]) -> bool {
    if record.len() != fields.len() {
        return false;
    }
    for (index, field) in fields.iter().enumerate() {
        if record.get(index) != Some(*field) {
            return false;
        }
    }
    true
}

#[test]
fn one_reader_gives_the_record_of_each_frame(rt: HostRuntime) -> Result<(), Fail> {
    let alloc = rt.alloc();
    let text = b"a,b\r\n\n\r\nc,\"d,\"\"\ne\"\r\n,\n\"\"f\n".as_slice();
    let frames: [&[u8]; 4] = [b"a,b\r", b"c,\"d,\"\"\ne\"\r", b",", b"\"\"f"];
    let records: [&[&[u8]]; 4] = [&[b"a", b"b"], &[b"c", b"d,\"\ne"], &[b"", b""], &[b"f"]];
    let length = run_length(text);
    assert_eq!(rt; length, text.len());
    let mut reader = RunReader::new(alloc, &text[..length]);
    let mut record = ByteRecord::new(alloc);
    for (index, frame) in frames.iter().enumerate() {
        assert!(rt; reader.next(&mut record)?, "at {index}");
        assert!(rt; has_fields(&record, records[index]), "at {index}");
        match record_of(alloc, frame)? {
            Some(alone) => assert!(rt; has_fields(&alone, records[index]), "alone at {index}"),
            None => panic!(rt; "no record at {index}"),
        }
    }
    assert!(rt; !reader.next(&mut record)?);
    assert!(rt; !reader.next(&mut record)?);
    Ok(())
}

#[test]
fn a_run_ends_before_a_frame_that_reads_otherwise(rt: HostRuntime) {
    let texts: [(&[u8], usize); 12] = [
        (b"", 0),
        (b"a\nb", 2),
        (b"a,b\nc\"d,e\"\nf\n", 4),
        (b"\"a\nb\"\nc\n", 8),
        (b"a\n\"b\nc\n", 2),
        (b"\"a\"b\nc\n", 7),
        (b"a\n\"b\"c\"d\n", 2),
        (b"\xef\xbb\xbfa\nb\n", 0),
        (b"a\n\xef\xbb\xbfb\n", 2),
        (b"a\xef\nb\n", 5),
        (b"a\rb\nc\n", 0),
        (b"a\n\r\r\nb\n", 2),
    ];
    for (index, text) in texts.iter().enumerate() {
        assert_eq!(rt; run_length(text.0), text.1, "at {index}");
    }
}

#[test]
fn a_frame_of_greatest_length_is_in_a_run(rt: HostRuntime) -> Result<(), Fail> {
    let alloc = rt.alloc();
    let mut text = Vec::new(alloc);
    text.resize(LONGEST_FRAME, b'x')?;
    text.push(b'\n')?;
    assert_eq!(rt; run_length(&text), LONGEST_FRAME + 1);
    text.insert(0, b'x')?;
    assert_eq!(rt; run_length(&text), 0);
    Ok(())
}
