//! Each outside object on its happy path, and what its script makes it answer.

use crate::{
    CalmOpener, MemOpener, MemShelf, MemSink, MemSource, Opener, OutsideFault, Pull, Script, Shelf,
    Sink, Site, Source, Stored, Turn,
};
use med_prelude::Text;
use std::alloc::{AllocError, Global};
use std::test::Fail;

mod spills;

fn stored(alloc: Global, name: &str, bytes: &[u8]) -> Result<Stored, AllocError> {
    Ok(Stored {
        name: Text::from_str(alloc, name)?,
        bytes: Vec::from_slice(alloc, bytes)?,
    })
}

#[test]
fn shelf_in_memory(rt: HostRuntime) -> Result<(), Fail> {
    let alloc = rt.alloc();
    let texts = vec![in alloc; stored(alloc, "plan", b"p")?, stored(alloc, "query", b"q")?]?;
    let mut shelf = MemShelf::new(alloc, texts, vec![in alloc; 1]?);
    assert_eq!(rt; shelf.fetch(alloc, "query")?.as_slice(), b"q".as_slice());
    assert_eq!(rt;
        shelf.fetch(alloc, "query"),
        Err(OutsideFault::Failed),
        "by script"
    );
    assert_eq!(rt;
        shelf.fetch(alloc, "none"),
        Err(OutsideFault::Failed),
        "no such text"
    );
    assert_eq!(rt; shelf.fetch(alloc, "plan")?.as_slice(), b"p".as_slice());
    assert_eq!(rt; shelf.asked().len(), 4);
    assert_eq!(rt; shelf.asked()[2].as_str(), "none");
    Ok(())
}

#[test]
fn source_in_memory_follows_its_script(rt: HostRuntime) -> Result<(), Fail> {
    let alloc = rt.alloc();
    let script = Script {
        turns: vec![in alloc; Turn::Give(2), Turn::NotYet, Turn::Failed, Turn::Give(0)]?,
        then: Turn::Give(9),
    };
    let text = Vec::from_slice(alloc, b"abcde")?;
    let mut source = MemSource::new(Text::from_str(alloc, "here")?, text, script, 0);
    let mut room = [0u8; 4];
    assert_eq!(rt; source.pull(&mut room), Pull::Bytes(2));
    assert_eq!(rt; &room, b"ab\0\0");
    assert_eq!(rt; source.pull(&mut room), Pull::NotYet);
    assert_eq!(rt; source.pull(&mut room), Pull::Failed);
    assert_eq!(rt; source.pull(&mut room), Pull::Bytes(1));
    assert_eq!(rt; source.pull(&mut []), Pull::Bytes(0));
    assert_eq!(rt; source.pull(&mut room), Pull::Bytes(2));
    assert_eq!(rt; &room, b"de\0\0");
    assert_eq!(rt; source.pull(&mut room), Pull::End);
    Ok(())
}

#[test]
fn opener_in_memory(rt: HostRuntime) -> Result<(), Fail> {
    let alloc = rt.alloc();
    let site = Site {
        location: Text::from_str(alloc, "here")?,
        text: Vec::from_slice(alloc, b"abc")?,
        script: Script::calm(alloc),
    };
    let mut opener = MemOpener::new(alloc, vec![in alloc; site]?, vec![in alloc; 1]?);
    let mut first = opener.open_at(alloc, "here")?;
    assert!(rt; opener.open_at(alloc, "here").is_err(), "by script");
    assert!(rt; opener.open_at(alloc, "there").is_err(), "no such site");
    let mut second = opener.open_at(alloc, "here")?;
    let mut room = [0u8; 2];
    assert_eq!(rt; first.pull(&mut room), Pull::Bytes(2));
    assert_eq!(rt; first.pull(&mut room), Pull::Bytes(1));
    assert_eq!(rt; second.pull(&mut room), Pull::Bytes(2));
    assert_eq!(rt; opener.given(), [0, 1].as_slice());
    assert_eq!(rt; opener.asked().len(), 4);
    assert_eq!(rt; opener.asked()[2].as_str(), "there");
    Ok(())
}

#[test]
fn calm_opener_gives_the_empty_text_where_it_has_none(rt: HostRuntime) -> Result<(), Fail> {
    let alloc = rt.alloc();
    let here = stored(alloc, "here", b"abcde")?;
    assert!(rt; here.fits_source());
    let mut opener = CalmOpener::new(alloc, vec![in alloc; here]?);
    let mut empty = opener.open_at(alloc, "there")?;
    assert_eq!(rt; empty.pull(&mut [0; 3]), Pull::End);
    assert_eq!(rt; opener.asked().len(), 1);
    let mut whole = opener.open_at(alloc, "here")?;
    let mut room = [0u8; 3];
    for answer in [Pull::Bytes(3), Pull::Bytes(2), Pull::End] {
        assert_eq!(rt; whole.pull(&mut room), answer);
    }
    assert_eq!(rt; &room, b"dec");
    Ok(())
}

#[test]
fn sink_in_memory_takes_pieces(rt: HostRuntime) -> Result<(), Fail> {
    let alloc = rt.alloc();
    let mut sink = MemSink::new(alloc, 2, vec![in alloc; 1]?);
    assert_eq!(rt; sink.write(alloc, b"abc"), Ok(2));
    assert_eq!(rt; sink.write(alloc, b""), Ok(0));
    assert_eq!(rt; sink.write(alloc, b"c"), Err(OutsideFault::Failed));
    assert_eq!(rt; sink.write(alloc, b"c"), Ok(1));
    assert_eq!(rt; sink.bytes(), b"abc".as_slice());
    let mut closed = MemSink::new(alloc, 0, vec![in alloc]?);
    assert_eq!(rt; closed.write(alloc, b"a"), Err(OutsideFault::Failed));
    Ok(())
}
