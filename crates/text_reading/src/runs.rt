//! The runs of bytes that one token takes.

ghost use Rattle.std.specs.Prelude.{◌≡◌, ◌≤◌, length, IfOk};
ghost use Rattle.text_reading.specs.Runs.{begins_blank, begins_integer, digit_run, integer_run, is_blank, name_in, name_run};

use med_prelude::{Text, continues_name, is_name};
use std::alloc::{AllocError, Global};

// The most bytes of a name.
const LONGEST_NAME: usize = 64;

/// Whether the byte is a space, a tab, a carriage return or a line feed.
pub fn is_blank(byte: u8) -> bool
    ensures { result ≡ is_blank byte }
{
    matches!(byte, b' ' | b'\t' | b'\r' | b'\n')
}

pub fn begins_blank(text: &[u8]) -> bool
    ensures { result ≡ begins_blank text.now }
{
    match text.first() {
        Some(byte) => is_blank(*byte),
        None => false,
    }
}

/// How many letters, digits and `_` the bytes begin with.
#[tactic(auto, using(crate::proofs::RunLaws::run_within))]
pub fn name_run(bytes: &[u8]) -> usize
    ensures value { result ≡ name_run bytes.now }
    ensures within { result ≤ length bytes.now }
{
    bytes
        .iter()
        .take_while(|byte| continues_name(**byte))
        .count()
}

/// How many digits the bytes begin with.
#[tactic(auto, using(crate::proofs::RunLaws::run_within))]
pub fn digit_run(bytes: &[u8]) -> usize
    ensures value { result ≡ digit_run bytes.now }
    ensures within { result ≤ length bytes.now }
{
    bytes
        .iter()
        .take_while(|byte| byte.is_ascii_digit())
        .count()
}

/// How many bytes a minus and the digits right after it take. The minus may be missing, and the digits too.
pub fn integer_run(bytes: &[u8]) -> usize
    ensures value { result ≡ integer_run bytes.now }
    ensures within { result ≤ length bytes.now }
{
    match bytes.split_first() {
        Some((b'-', digits)) => digit_run(digits) + 1,
        Some(_) => digit_run(bytes),
        None => 0,
    }
}

/// Whether the byte is a digit or a minus.
pub fn begins_integer(byte: u8) -> bool
    ensures { result ≡ begins_integer byte }
{
    byte.is_ascii_digit() || byte == b'-'
}

/// The run as a name, where it is one of at most 64 bytes.
#[tactic(auto, using(crate::proofs::NameLaws::name_text))]
pub fn name_in(alloc: Global, run: &[u8]) -> Result<Option<Text>, AllocError>
    ensures { IfOk result (λ name. name ≡ name_in run.now) }
{
    if run.len() > LONGEST_NAME || !is_name(run) {
        return Ok(None);
    }
    Text::from_utf8(alloc, run)
}
