//! Names, which a catalogue, a query and a plan spell alike.

ghost use Rattle.std.specs.Prelude.{◌≡◌};
ghost use Rattle.std.specs.List.{list_all};
ghost use Rattle.med_prelude.specs.Names.{starts_name, continues_name, spells_name, is_truth_word, is_name};

/// Whether a name may begin with the byte: an ASCII letter.
#[tactic(auto, unfolding(crate::specs::Names::starts_name))]
pub fn starts_name(byte: u8) -> bool
    ensures { result ≡ starts_name byte }
{
    matches!(byte, b'A'..=b'Z' | b'a'..=b'z')
}

/// Whether a name may go on with the byte: a letter, a digit or `_`.
#[tactic(auto, unfolding(crate::specs::Names::continues_name))]
pub fn continues_name(byte: u8) -> bool
    ensures { result ≡ continues_name byte }
{
    starts_name(byte) || matches!(byte, b'0'..=b'9' | b'_')
}

fn all_continue(bytes: &[u8]) -> bool
    ensures { result ≡ list_all continues_name bytes.now }
{
    bytes.iter().all(|byte| continues_name(*byte))
}

fn spells_name(bytes: &[u8]) -> bool
    ensures { result ≡ spells_name bytes.now }
{
    match bytes.split_first() {
        Some((first, rest)) => starts_name(*first) && all_continue(rest),
        None => false,
    }
}

#[tactic(auto, unfolding(crate::specs::Names::is_truth_word))]
fn is_truth_word(bytes: &[u8]) -> bool
    ensures { result ≡ is_truth_word bytes.now }
{
    bytes == b"true".as_slice() || bytes == b"false".as_slice()
}

/// Whether the bytes are a name, of any length. The words `true` and `false` are none.
pub fn is_name(bytes: &[u8]) -> bool
    ensures { result ≡ is_name bytes.now }
{
    spells_name(bytes) && !is_truth_word(bytes)
}
