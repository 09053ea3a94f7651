//! Texts in double quotes, in which a quote is doubled.

ghost use Rattle.std.specs.Prelude.{◌≡◌, ℕ, ◌+◌, false, List, ◌∷◌, ◌++◌, length, Some, IfOk};
ghost use Rattle.text_reading.specs.Quoted.{IsQuoted, begins_quote, quote, quoted_text, with_quotes_doubled};

use med_prelude::Listed;
use std::alloc::{AllocError, Global};

/// The text behind an opening quote with its quotes undoubled, and how many bytes it takes with the closing quote:
/// the first one that isn't doubled. There is none where the text doesn't end.
pub fn quoted_text(alloc: Global, bytes: &[u8]) -> Result<Option<(Listed<u8>, usize)>, AllocError>
    ensures { IfOk result (λ read. read ≡ quoted_text bytes.now) }
{
    let mut text = Vec::new(alloc);
    let mut rest = bytes;
    while let Some((first, after)) = rest.split_first() {
        if *first != b'"' {
            text.push(*first)?;
            rest = after;
        } else {
            let Some((b'"', others)) = after.split_first() else {
                return Ok(Some((Listed::from_vec(text), bytes.len() - after.len())));
            };
            text.push(b'"')?;
            rest = others;
        }
    }
    Ok(None)
}

/// The law of quoted texts: a text that is written with its quotes doubled is read back, whatever follows its closing
/// quote but another quote; and what is read was written so.
pub fn quoted_is_read_back()
    ensures back { (text rest : List ℕ) → begins_quote rest ≡ false
        → quoted_text (with_quotes_doubled text ++ (quote ∷ rest)) ≡ Some (text, length (with_quotes_doubled text) + 1) }
    ensures written { (bytes text : List ℕ) (taken : ℕ) → quoted_text bytes ≡ Some (text, taken) → IsQuoted text taken bytes }
{}
