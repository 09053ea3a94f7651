//! What words ask for, and what the user is told of each end.

use super::{CATALOGUE, Csv, QUERY, call, shelf, sink};
use med_base::{GroupName, MemSink, ShelfFile, Status, Turn};
use std::alloc::{AllocError, Global};
use std::process::Abort;
use std::test::Fail;
use std::thread::Threads;

const USAGE: &str =
    "usage: mediator run CATALOGUE QUERY [PLAN] [--threads N] [--report] [--journal]\n       mediator check CATALOGUE QUERY [PLAN]\n       mediator load NUMBER [--rows N] [--threads N]\n";

/// What a call meets: its words, its two texts, the fetches that fail, its one source, and the writes of the answer
/// that fail.
#[derive(Clone, Copy, Drop)]
struct Case<'a> {
    words: &'a [&'a str],
    texts: (&'a str, &'a str),
    failing: &'a [usize],
    source: Csv<'a>,
    out_failing: &'a [usize],
}

/// These words over texts that are accepted and a source with one row.
fn asking<'a>(words: &'a [&'a str]) -> Case<'a> {
    Case {
        words,
        texts: (CATALOGUE, QUERY),
        failing: &[],
        source: Csv("a", "x\noslo\n", &[]),
        out_failing: &[],
    }
}

/// Calls the mediator with a sink for messages, and compares how it ended and what it told.
fn assert_tells<R: Threads + Sync + Abort>(
    rt: &R,
    alloc: Global,
    case: &Case<'_>,
    mut err: MemSink,
    status: Status,
    told: &[u8],
) -> Result<(), AllocError> {
    let failing = Vec::from_slice(alloc, case.failing)?;
    let shelf = shelf(alloc, case.texts, failing)?;
    let out_failing = Vec::from_slice(alloc, case.out_failing)?;
    let mut out = MemSink::new(alloc, usize::MAX, out_failing);
    let sites = [case.source];
    let outcome = call(rt, alloc, case.words, shelf, &sites, &mut out, &mut err)?;
    assert_eq!(rt; outcome.status, status);
    assert_eq!(rt; err.bytes(), told);
    Ok(())
}

/// The same with a sink that takes all, one that takes 3 bytes a call, and one that fails after 4.
fn assert_told<R: Threads + Sync + Abort>(
    rt: &R,
    alloc: Global,
    case: &Case<'_>,
    status: Status,
    text: &str,
) -> Result<(), AllocError> {
    let told = text.as_bytes();
    assert_tells(rt, alloc, case, sink(alloc), status, told)?;
    let slow = MemSink::new(alloc, 3, Vec::new(alloc));
    assert_tells(rt, alloc, case, slow, status, told)?;
    let failing = MemSink::new(alloc, 4, vec![in alloc; 1]?);
    let start = told.get(..4).unwrap_or(told);
    assert_tells(rt, alloc, case, failing, status, start)
}

fn assert_words<R: Threads + Sync + Abort>(
    rt: &R,
    alloc: Global,
    words: &[&str],
    status: Status,
    text: &str,
) -> Result<(), AllocError> {
    assert_told(rt, alloc, &asking(words), status, text)
}

#[test]
fn words_that_are_no_command_are_told_its_forms(rt: HostRuntime) -> Result<(), Fail> {
    let alloc = rt.alloc();
    let usage = Status::Usage;
    assert_words(&rt, alloc, &[], usage, USAGE)?;
    assert_words(&rt, alloc, &["run", "cat"], usage, USAGE)?;
    assert_words(&rt, alloc, &["run", "a", "b", "c", "d"], usage, USAGE)?;
    assert_words(&rt, alloc, &["walk", "cat", "q"], usage, USAGE)?;
    assert_words(
        &rt,
        alloc,
        &["run", "cat", "q", "--threads", "65"],
        usage,
        USAGE,
    )?;
    assert_words(&rt, alloc, &["load", "1000001"], usage, USAGE)?;
    Ok(())
}

#[test]
fn words_are_a_run_or_not_built_yet(rt: HostRuntime) -> Result<(), Fail> {
    let alloc = rt.alloc();
    let unbuilt = Status::NotBuilt { why: 1 };
    let line = "mediator: not built yet 1\n";
    assert_words(
        &rt,
        alloc,
        &["run", "--threads", "2", "cat", "q"],
        Status::Done,
        "",
    )?;
    assert_words(
        &rt,
        alloc,
        &["run", "cat", "q", "--threads=64"],
        Status::Done,
        "",
    )?;
    assert_words(&rt, alloc, &["run", "cat", "q", "plan"], unbuilt, line)?;
    assert_words(&rt, alloc, &["run", "--report", "cat", "q"], unbuilt, line)?;
    assert_words(&rt, alloc, &["run", "cat", "q", "--journal"], unbuilt, line)?;
    assert_words(&rt, alloc, &["check", "cat", "q"], unbuilt, line)?;
    assert_words(&rt, alloc, &["load", "7"], unbuilt, line)?;
    Ok(())
}

/// What a fetch that fails tells.
fn assert_cannot_read<R: Threads + Sync + Abort>(
    rt: &R,
    alloc: Global,
    failing: &[usize],
    file: ShelfFile,
    text: &str,
) -> Result<(), AllocError> {
    let case = Case {
        words: &["run", "cat", "q"],
        texts: (CATALOGUE, QUERY),
        failing,
        source: Csv("a", "x\n", &[]),
        out_failing: &[],
    };
    assert_told(rt, alloc, &case, Status::ShelfFault { file }, text)
}

/// What is told of a run over these texts and a source with this text and these turns.
fn assert_run<R: Threads + Sync + Abort>(
    rt: &R,
    alloc: Global,
    texts: (&str, &str),
    source: Csv<'_>,
    status: Status,
    text: &str,
) -> Result<(), AllocError> {
    let case = Case {
        words: &["run", "cat", "q"],
        texts,
        failing: &[],
        source,
        out_failing: &[],
    };
    assert_told(rt, alloc, &case, status, text)
}

#[test]
fn refused_texts_are_told(rt: HostRuntime) -> Result<(), Fail> {
    let alloc = rt.alloc();
    let mirrors =
        "[[relation]]\nname = \"city\"\ncolumns = [\"x:text\"]\ngroups = [[\"a\", \"b\"]]";
    let refused = Status::CatalogueRefused {
        why: 2,
        relation: 0,
        item: 0,
    };
    let line = "mediator: catalogue refused 2 relation 0 item 0\n";
    let source = Csv("a", "x\n", &[]);
    assert_run(&rt, alloc, ("", QUERY), source, refused, line)?;
    let refused = Status::QueryRefused { why: 1, at: 15 };
    let line = "mediator: query refused 1 at 15\n";
    assert_run(
        &rt,
        alloc,
        (CATALOGUE, "q(x) :- city(x)"),
        source,
        refused,
        line,
    )?;
    let unbuilt = Status::NotBuilt { why: 4 };
    assert_run(
        &rt,
        alloc,
        (mirrors, QUERY),
        source,
        unbuilt,
        "mediator: not built yet 4\n",
    )?;
    Ok(())
}

#[test]
fn faults_are_told(rt: HostRuntime) -> Result<(), Fail> {
    let alloc = rt.alloc();
    let line = "mediator: cannot read catalogue\n";
    assert_cannot_read(&rt, alloc, &[0], ShelfFile::Catalogue, line)?;
    assert_cannot_read(
        &rt,
        alloc,
        &[1],
        ShelfFile::Query,
        "mediator: cannot read query\n",
    )?;
    let starved = Status::Starved {
        group: GroupName { atom: 1, group: 1 },
    };
    let texts = (CATALOGUE, QUERY);
    let line = "mediator: starved a1.1\n";
    assert_run(&rt, alloc, texts, Csv("a", "y\n", &[]), starved, line)?;
    let stalled = Status::Stalled { rounds: 100_000 };
    let line = "mediator: stalled 100000 rounds\n";
    assert_run(
        &rt,
        alloc,
        texts,
        Csv("a", "x\n", &[Turn::NotYet]),
        stalled,
        line,
    )?;
    let case = Case {
        words: &["run", "cat", "q"],
        texts,
        failing: &[],
        source: Csv("a", "x\noslo\n", &[]),
        out_failing: &[0],
    };
    assert_told(
        &rt,
        alloc,
        &case,
        Status::OutFault,
        "mediator: output fault\n",
    )?;
    Ok(())
}
