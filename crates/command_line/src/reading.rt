//! Reads the words: the first by hand, the rest by `clap`.

ghost use Rattle.std.specs.Prelude.{◌≡◌, true, map, IfOk};
ghost use Rattle.clap.specs.Words.{app_of, is_simple_and_free};
ghost use Rattle.command_line.specs.Commands.{Finds, GivesCommand, check_in, command_of, load_in, read_by, run_in};
ghost use Rattle.command_line.specs.Forms as spec;

use crate::command::{Command, NoCommand};
use crate::finding::{is_set_at, number_at, optional_text_at, text_at};
use crate::forms::{check_form, load_form, run_form};
use clap::error::ErrorKind;
use clap::{ArgMatches, Command as Form};
use med_prelude::{ReadFault, Text};
use std::alloc::{AllocError, Global};

/// So many threads run where a command doesn't say.
const DEFAULT_THREADS: u32 = 4;

/// So many rows are generated for a relation where a command doesn't say.
const DEFAULT_ROWS: u32 = 4000;

/// The command that the words after the program's name spell.
pub fn read_command(alloc: Global, words: &[Text]) -> Result<Command, ReadFault<NoCommand>>
    ensures { GivesCommand (command_of words.now) result }
{
    let texts = texts_of(alloc, words)?;
    let Some(name) = words.first() else {
        return Err(ReadFault::Broken(NoCommand));
    };
    let name = name.as_str();
    if name == "run" {
        read_run(alloc, texts.as_slice())
    } else if name == "check" {
        read_check(alloc, texts.as_slice())
    } else if name == "load" {
        read_load(alloc, texts.as_slice())
    } else {
        Err(ReadFault::Broken(NoCommand))
    }
}

fn texts_of<'a>(alloc: Global, words: &'a [Text]) -> Result<Vec<&'a str>, AllocError>
    ensures { IfOk result (λ texts. map (λ text. text.now) texts.items ≡ words.entry.now) }
{
    let mut texts = Vec::new(alloc);
    for word in words {
        texts.push(word.as_str())?;
    }
    Ok(texts)
}

fn read_run(alloc: Global, words: &[&str]) -> Result<Command, ReadFault<NoCommand>>
    ensures { GivesCommand (read_by spec.run_form run_in (map (λ word. word.now) words.now)) result }
{
    let found = find_in(run_form(alloc)?, words)?;
    Ok(Command::Run {
        catalogue: text_at(alloc, &found, "catalogue")?,
        query: text_at(alloc, &found, "query")?,
        plan: optional_text_at(alloc, &found, "plan")?,
        threads: number_at(&found, "threads", DEFAULT_THREADS),
        report: is_set_at(&found, "report"),
        journal: is_set_at(&found, "journal"),
    })
}

fn read_check(alloc: Global, words: &[&str]) -> Result<Command, ReadFault<NoCommand>>
    ensures { GivesCommand (read_by spec.check_form check_in (map (λ word. word.now) words.now)) result }
{
    let found = find_in(check_form(alloc)?, words)?;
    Ok(Command::Check {
        catalogue: text_at(alloc, &found, "catalogue")?,
        query: text_at(alloc, &found, "query")?,
        plan: optional_text_at(alloc, &found, "plan")?,
    })
}

fn read_load(alloc: Global, words: &[&str]) -> Result<Command, ReadFault<NoCommand>>
    ensures { GivesCommand (read_by spec.load_form load_in (map (λ word. word.now) words.now)) result }
{
    let found = find_in(load_form(alloc)?, words)?;
    Ok(Command::Load {
        number: number_at(&found, "number", 0),
        rows: number_at(&found, "rows", DEFAULT_ROWS),
        threads: number_at(&found, "threads", DEFAULT_THREADS),
    })
}

/// What the form's reader finds in the words, of which the first is the command's name.
fn find_in<'a>(form: Form<'a>, words: &'a [&'a str]) -> Result<ArgMatches<'a>, ReadFault<NoCommand>>
    requires { is_simple_and_free (app_of form) ≡ true }
    ensures { Finds (app_of form.entry) (map (λ word. word.now) words.entry.now) result }
{
    match form.try_get_matches_from(words) {
        Ok(found) => Ok(found),
        Err(error) => match error.kind() {
            ErrorKind::OutOfMemory => Err(ReadFault::NoMemory),
            _ => Err(ReadFault::Broken(NoCommand)),
        },
    }
}
