//! Catalogues by hand, with what they are read as or where they are refused; each limit at its edge.

mod edges;
mod refusals;

use crate::{CatalogueFault, LONGEST_CATALOGUE, read_catalogue};
use std::alloc::{AllocError, Global};
use std::process::Abort;
use std::test::Fail;
use tuple_core::Kind;

fn refused(why: u8, relation: u32, item: u32) -> CatalogueFault {
    CatalogueFault::Refused {
        why,
        relation,
        item,
    }
}

fn assert_refused(rt: &impl Abort, alloc: Global, text: &[u8], fault: CatalogueFault) {
    match read_catalogue(alloc, text) {
        Err(found) => assert_eq!(rt; found, fault),
        Ok(_) => panic!(rt; "accepted in place of {fault}"),
    }
}

fn assert_accepted(rt: &impl Abort, alloc: Global, text: &[u8]) {
    match read_catalogue(alloc, text) {
        Ok(_) => {}
        Err(found) => panic!(rt; "{found}"),
    }
}

/// So many times the word, parted by commas.
fn times(alloc: Global, count: usize, word: &str) -> Result<String, AllocError> {
    let mut text = String::new(alloc);
    for index in 0..count {
        if index > 0 {
            text.push(',')?;
        }
        text.push_str(word)?;
    }
    Ok(text)
}

/// A text of so many bytes.
fn long(alloc: Global, length: usize) -> Result<String, AllocError> {
    let mut text = String::new(alloc);
    for _ in 0..length {
        text.push('n')?;
    }
    Ok(text)
}

#[test]
fn reads_relations(rt: HostRuntime) -> Result<(), Fail> {
    let text = br#"
[[relation]]
name = "city"
columns = ["a:b:int", "name:text", "large:bool"]
groups = [["a.csv", "b.csv"], ["c.csv"]]
rows = 25

[[relation]]
name = "river"
columns = ["x:int"]
groups = [["r.csv"]]
"#;
    let catalogue = read_catalogue(rt.alloc(), text).map_err(|_| Fail::from("refused"))?;
    assert_eq!(rt; catalogue.len(), 2);
    let city = &catalogue.as_slice()[0];
    assert_eq!(rt; city.name.as_str(), "city");
    assert_eq!(rt; city.rows, 25);
    assert_eq!(rt; city.columns.len(), 3);
    assert_eq!(rt; city.columns.as_slice()[0].name.as_str(), "a:b");
    assert_eq!(rt; city.columns.as_slice()[0].kind, Kind::Int);
    assert_eq!(rt; city.columns.as_slice()[1].kind, Kind::Text);
    assert_eq!(rt; city.columns.as_slice()[2].kind, Kind::Bool);
    assert_eq!(rt; city.groups.len(), 2);
    assert_eq!(rt; city.groups.as_slice()[0].len(), 2);
    assert_eq!(rt; city.groups.as_slice()[0].as_slice()[1].as_str(), "b.csv");
    assert_eq!(rt; catalogue.as_slice()[1].rows, 1000);
    Ok(())
}

#[test]
fn bounds_the_text(rt: HostRuntime) -> Result<(), Fail> {
    let alloc = rt.alloc();
    let relation = b"[[relation]]\nname=\"r\"\ncolumns=[\"x:int\"]\ngroups=[[\"a\"]]\n";
    let mut text = Vec::from_slice(alloc, relation)?;
    for _ in relation.len()..LONGEST_CATALOGUE {
        text.push(b'\n')?;
    }
    assert_accepted(&rt, alloc, text.as_slice());
    text.push(b'\n')?;
    assert_refused(&rt, alloc, text.as_slice(), refused(4, 0, 0));
    text.push(b'\xff')?;
    assert_refused(&rt, alloc, text.as_slice(), refused(4, 0, 0));
    Ok(())
}
