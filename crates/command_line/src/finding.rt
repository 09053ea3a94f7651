//! What the reader found for an argument.

ghost use Rattle.std.specs.Prelude.{◌≡◌, IfOk};
ghost use Rattle.clap.specs.Words.{found_of, rows_of};
ghost use Rattle.command_line.specs.Commands as spec;

use clap::ArgMatches;
use med_prelude::Text;
use std::alloc::{AllocError, Global};

/// A copy of the text of an argument that must be given.
pub fn text_at(alloc: Global, found: &ArgMatches<'_>, id: &str) -> Result<Text, AllocError>
    ensures { IfOk result (λ text. text ≡ spec.text_at id.now (rows_of (found_of found.now))) }
{
    Text::from_str(alloc, found.get_str(id).unwrap_or(""))
}

/// A copy of the text of an argument, where it is given.
pub fn optional_text_at(
    alloc: Global,
    found: &ArgMatches<'_>,
    id: &str,
) -> Result<Option<Text>, AllocError>
    ensures { IfOk result (λ text. text ≡ spec.optional_text_at id.now (rows_of (found_of found.now))) }
{
    match found.get_str(id) {
        Some(text) => Ok(Some(Text::from_str(alloc, text)?)),
        None => Ok(None),
    }
}

/// The number of an argument, or another one where it isn't given.
pub fn number_at(found: &ArgMatches<'_>, id: &str, default: u32) -> u32
    ensures { result ≡ spec.number_at id.now default (rows_of (found_of found.now)) }
{
    found.get_one::<u32>(id).unwrap_or(default)
}

/// Whether a flag is given.
pub fn is_set_at(found: &ArgMatches<'_>, id: &str) -> bool
    ensures { result ≡ spec.is_set_at id.now (rows_of (found_of found.now)) }
{
    found.get_one::<bool>(id).unwrap_or(false)
}
