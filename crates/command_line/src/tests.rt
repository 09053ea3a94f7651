//! Which words are a command, by hand.

use super::*;
use med_prelude::{ReadFault, Text};
use std::alloc::{AllocError, Global};
use std::test::Fail;

fn texts(alloc: Global, words: &str) -> Result<Vec<Text>, AllocError> {
    let mut list = Vec::new(alloc);
    for word in words.split_whitespace() {
        list.push(Text::from_str(alloc, word)?)?;
    }
    Ok(list)
}

#[test]
fn other_words_are_no_command(rt: HostRuntime) -> Result<(), Fail> {
    let alloc = rt.alloc();
    for words in [
        "",
        "cat",
        "Run c q",
        "run",
        "run cat",
        "run a b c d",
        "run c q --threads",
        "run c q --threads 0",
        "run c q --threads 65",
        "run c q --threads x",
        "run c q --threads -1",
        "run c q --threads 1 --threads 2",
        "run c q --report --report",
        "run c q --report=yes",
        "run c q --rows 5",
        "run c q --help",
        "run --version",
        "run c q -t 4",
        "check c",
        "check c q p x",
        "check c q --threads 4",
        "load",
        "load x",
        "load 1000001",
        "load -1",
        "load 1 2",
        "load 1 --rows 20001",
        "load 1 --report",
    ] {
        let read = read_command(alloc, texts(alloc, words)?.as_slice());
        assert!(rt;
            matches!(read, Err(ReadFault::Broken(NoCommand))),
            "{words:?}"
        );
    }
    Ok(())
}

/// What a command has, with `-` for a plan that isn't named.
fn spelled(alloc: Global, command: &Command) -> Result<String, AllocError> {
    match command {
        Command::Run {
            catalogue,
            query,
            plan,
            threads,
            report,
            journal,
        } => {
            let plan = plan.as_ref().map_or("-", |plan| plan.as_str());
            let (catalogue, query) = (catalogue.as_str(), query.as_str());
            format!(in alloc; "run {catalogue} {query} {plan} {threads} {report} {journal}")
        }
        Command::Check {
            catalogue,
            query,
            plan,
        } => {
            let plan = plan.as_ref().map_or("-", |plan| plan.as_str());
            let (catalogue, query) = (catalogue.as_str(), query.as_str());
            format!(in alloc; "check {catalogue} {query} {plan}")
        }
        Command::Load {
            number,
            rows,
            threads,
        } => format!(in alloc; "load {number} {rows} {threads}"),
    }
}

#[test]
fn commands_are_read(rt: HostRuntime) -> Result<(), Fail> {
    let alloc = rt.alloc();
    for (words, want) in [
        ("run c q", "run c q - 4 false false"),
        ("run c q p", "run c q p 4 false false"),
        ("run --threads 64 c q", "run c q - 64 false false"),
        ("run c q --threads=1 --journal", "run c q - 1 false true"),
        ("run c --report q --threads 2 p", "run c q p 2 true false"),
        ("run -- -c -q", "run -c -q - 4 false false"),
        ("check c q", "check c q -"),
        ("check c q p", "check c q p"),
        ("load 0", "load 0 4000 4"),
        (
            "load 1000000 --rows 20000 --threads 8",
            "load 1000000 20000 8",
        ),
        ("load --rows 0 7", "load 7 0 4"),
    ] {
        let command = read_command(alloc, texts(alloc, words)?.as_slice())?;
        assert_eq!(rt; spelled(alloc, &command)?.as_str(), want, "{words:?}");
    }
    Ok(())
}
