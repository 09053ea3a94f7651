//! The call on objects in memory.

mod members;
mod queries;
mod words;

use crate::{IDLE_LIMIT, Outcome, mediate};
use med_base::{
    GroupName, MemOpener, MemShelf, MemSink, MemSource, MemSpill, MemSpills, MemberFault,
    MemberState, NoGate, Script, ScriptClock, Site, Status, Stored, Turn,
};
use std::alloc::{AllocError, Global};
use std::process::Abort;
use std::test::Fail;
use std::thread::Threads;
use tuple_core::{Text, Words};

const CATALOGUE: &str = r#"[[relation]]
name = "city"
columns = ["x:text"]
groups = [["a"]]
"#;

const TWO_GROUPS: &str = r#"[[relation]]
name = "n"
columns = ["x:int"]
groups = [["a"], ["b"]]
"#;

const QUERY: &str = "q(x) :- city(x).";

const NUMBERS: &str = "q(x) :- n(x).";

/// A location, its CSV, and the turns that its source takes, of which the last is taken for ever.
#[derive(Clone, Copy, Drop)]
struct Csv<'a>(&'a str, &'a str, &'a [Turn]);

fn stored(alloc: Global, name: &str, text: &str) -> Result<Stored, AllocError> {
    Ok(Stored {
        name: Text::from_str(alloc, name)?,
        bytes: Vec::from_slice(alloc, text.as_bytes())?,
    })
}

fn words_of(alloc: Global, words: &[&str]) -> Result<Words, AllocError> {
    let mut list = Words::new(alloc);
    for word in words {
        list.push(Text::from_str(alloc, word)?)?;
    }
    Ok(list)
}

fn shelf(alloc: Global, texts: (&str, &str), failing: Vec<usize>) -> Result<MemShelf, AllocError> {
    let mut list = Vec::new(alloc);
    list.push(stored(alloc, "cat", texts.0)?)?;
    list.push(stored(alloc, "q", texts.1)?)?;
    Ok(MemShelf::new(alloc, list, failing))
}

fn site(alloc: Global, csv: &Csv<'_>) -> Result<Site, AllocError> {
    let mut script = Script::calm(alloc);
    for turn in csv.2 {
        script.turns.push(*turn)?;
    }
    script.then = csv.2.last().copied().unwrap_or(script.then);
    Ok(Site {
        location: Text::from_str(alloc, csv.0)?,
        text: Vec::from_slice(alloc, csv.1.as_bytes())?,
        script,
    })
}

fn opener(alloc: Global, sites: &[Csv<'_>]) -> Result<MemOpener, AllocError> {
    let mut list = Vec::new(alloc);
    for csv in sites {
        list.push(site(alloc, csv)?)?;
    }
    Ok(MemOpener::new(alloc, list, Vec::new(alloc)))
}

fn sink(alloc: Global) -> MemSink {
    MemSink::new(alloc, usize::MAX, Vec::new(alloc))
}

/// Calls the mediator with a shelf and sinks that fail as told.
fn call<R: Threads + Sync>(
    rt: &R,
    alloc: Global,
    words: &[&str],
    mut shelf: MemShelf,
    sites: &[Csv<'_>],
    out: &mut MemSink,
    err: &mut MemSink,
) -> Result<Outcome<MemSource, MemSpill>, AllocError> {
    let words = words_of(alloc, words)?;
    let mut opener = opener(alloc, sites)?;
    let mut spills = MemSpills::new(alloc, Vec::new(alloc), Vec::new(alloc));
    let mut clock = ScriptClock::new(Vec::new(alloc));
    let outcome = mediate(
        rt,
        alloc,
        &words,
        &mut shelf,
        &mut opener,
        &mut spills,
        &mut clock,
        &NoGate,
        out,
        err,
    );
    Ok(outcome)
}

/// Runs the catalogue and the query over the sites.
fn run<R: Threads + Sync>(
    rt: &R,
    alloc: Global,
    texts: (&str, &str),
    sites: &[Csv<'_>],
    out: &mut MemSink,
) -> Result<Outcome<MemSource, MemSpill>, AllocError> {
    let shelf = shelf(alloc, texts, Vec::new(alloc))?;
    let mut err = sink(alloc);
    call(rt, alloc, &["run", "cat", "q"], shelf, sites, out, &mut err)
}

#[test]
fn texts_are_refused(rt: HostRuntime) -> Result<(), Fail> {
    let alloc = rt.alloc();
    let no_columns = "[[relation]]\nname = \"city\"\ncolumns = []\ngroups = [[\"a\"]]";
    let no_groups = "[[relation]]\nname = \"city\"\ncolumns = [\"x:text\"]\ngroups = []";
    let two_mirrors =
        "[[relation]]\nname = \"city\"\ncolumns = [\"x:text\"]\ngroups = [[\"a\", \"b\"]]";
    let nine =
        "q(x) :- city(x), city(x), city(x), city(x), city(x), city(x), city(x), city(x), city(x).";
    let catalogue_refused = |why: u8| Status::CatalogueRefused {
        why,
        relation: 0,
        item: 0,
    };
    let query_refused = |why: u8, at: u64| Status::QueryRefused { why, at };
    for (catalogue, query, status) in [
        ("[[relation", QUERY, catalogue_refused(1)),
        ("", QUERY, catalogue_refused(2)),
        (no_columns, QUERY, catalogue_refused(2)),
        (no_groups, QUERY, catalogue_refused(6)),
        (no_groups, "q(x) :-", catalogue_refused(6)),
        (CATALOGUE, "q(x) :- city(x)", query_refused(1, 15)),
        (CATALOGUE, "q(x) :- town(x).", query_refused(2, 8)),
        (CATALOGUE, "q(x) :- city(x, x).", query_refused(3, 8)),
        (CATALOGUE, "q(x) :- city(x), x < 5.", query_refused(4, 17)),
        (CATALOGUE, "q(y) :- city(x).", query_refused(5, 2)),
        (CATALOGUE, "q(x) :- city(x), y < 5.", query_refused(6, 17)),
        (CATALOGUE, nine, query_refused(7, 80)),
        (two_mirrors, "q(x) :- town(x).", query_refused(2, 8)),
        (two_mirrors, QUERY, Status::NotBuilt { why: 4 }),
    ] {
        let mut out = sink(alloc);
        let outcome = run(&rt, alloc, (catalogue, query), &[], &mut out)?;
        assert_eq!(rt; outcome.status, status, "{catalogue:?} {query:?}");
        assert!(rt; outcome.members.is_empty());
        assert!(rt; out.bytes().is_empty());
    }
    Ok(())
}

#[test]
fn sink_that_fails_has_a_prefix(rt: HostRuntime) -> Result<(), Fail> {
    let alloc = rt.alloc();
    let mut failing = Vec::new(alloc);
    failing.push(1)?;
    let mut out = MemSink::new(alloc, 4, failing);
    let sites = [Csv("a", "x\nparis\noslo\nparis\n", &[])];
    let outcome = run(&rt, alloc, (CATALOGUE, QUERY), &sites, &mut out)?;
    assert_eq!(rt; outcome.status, Status::OutFault);
    assert_eq!(rt; out.bytes(), b"oslo".as_slice());
    Ok(())
}
