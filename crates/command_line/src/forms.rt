//! What `clap` reads of each command: its arguments, and no flags for help or version.

ghost use Rattle.std.specs.Prelude.{◌≡◌, false, IfOk};
ghost use Rattle.clap.specs.Words.{app_of, rule_of};
ghost use Rattle.command_line.specs.Forms as spec;

use clap::{Arg, ArgAction, Command, value_parser};
use std::alloc::{AllocError, Global};

/// The most threads that a command may ask for.
const MOST_THREADS: i64 = 64;

/// The greatest number of a generated input.
const MOST_NUMBER: i64 = 1_000_000;

/// The most rows of a generated relation.
const MOST_ROWS: i64 = 20_000;

/// `run CATALOGUE QUERY [PLAN] [--threads N] [--report] [--journal]`
pub fn run_form<'a>(alloc: Global) -> Result<Command<'a>, AllocError>
    ensures { IfOk result (λ form. app_of form ≡ spec.run_form) }
{
    let form = with_texts(alloc, bare(alloc, "run"))?;
    form.arg(threads_option(alloc))?
        .arg(flag(alloc, "report"))?
        .arg(flag(alloc, "journal"))
}

/// `check CATALOGUE QUERY [PLAN]`
pub fn check_form<'a>(alloc: Global) -> Result<Command<'a>, AllocError>
    ensures { IfOk result (λ form. app_of form ≡ spec.check_form) }
{
    with_texts(alloc, bare(alloc, "check"))
}

/// `load NUMBER [--rows N] [--threads N]`
pub fn load_form<'a>(alloc: Global) -> Result<Command<'a>, AllocError>
    ensures { IfOk result (λ form. app_of form ≡ spec.load_form) }
{
    let form = bare(alloc, "load").arg(number_word(alloc))?;
    form.arg(rows_option(alloc))?.arg(threads_option(alloc))
}

fn bare<'a>(alloc: Global, name: &'a str) -> Command<'a>
    ensures { app_of result ≡ spec.bare name.entry.now }
{
    Command::new(alloc, name)
        .disable_help_flag(true)
        .disable_version_flag(true)
}

fn with_texts<'a>(alloc: Global, form: Command<'a>) -> Result<Command<'a>, AllocError>
    ensures { IfOk result (λ longer. app_of longer ≡ spec.with_texts (app_of form.entry)) }
{
    form.arg(required_word(alloc, "catalogue"))?
        .arg(required_word(alloc, "query"))?
        .arg(optional_word(alloc, "plan"))
}

fn optional_word<'a>(alloc: Global, id: &'a str) -> Arg<'a>
    ensures rule { rule_of result ≡ spec.optional_word id.entry.now }
    ensures own { result.global ≡ false }
{
    Arg::new(alloc, id).action(ArgAction::Set)
}

fn required_word<'a>(alloc: Global, id: &'a str) -> Arg<'a>
    ensures rule { rule_of result ≡ spec.required_word id.entry.now }
    ensures own { result.global ≡ false }
{
    optional_word(alloc, id).required(true)
}

fn number_word<'a>(alloc: Global) -> Arg<'a>
    ensures rule { rule_of result ≡ spec.number_word }
    ensures own { result.global ≡ false }
{
    required_word(alloc, "number").value_parser(value_parser!(u32).range(0..=MOST_NUMBER))
}

fn rows_option<'a>(alloc: Global) -> Arg<'a>
    ensures rule { rule_of result ≡ spec.rows_option }
    ensures own { result.global ≡ false }
{
    optional_word(alloc, "rows")
        .long("rows")
        .value_parser(value_parser!(u32).range(0..=MOST_ROWS))
}

fn threads_option<'a>(alloc: Global) -> Arg<'a>
    ensures rule { rule_of result ≡ spec.threads_option }
    ensures own { result.global ≡ false }
{
    optional_word(alloc, "threads")
        .long("threads")
        .value_parser(value_parser!(u32).range(1..=MOST_THREADS))
}

fn flag<'a>(alloc: Global, id: &'a str) -> Arg<'a>
    ensures rule { rule_of result ≡ spec.flag id.entry.now }
    ensures own { result.global ≡ false }
{
    Arg::new(alloc, id).long(id).action(ArgAction::SetTrue)
}
