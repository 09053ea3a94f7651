//! Words that name the parts of a plan: `a1` an atom, `a1.2.1` a member, `j1` a join, `f1` a fragment.

ghost use Rattle.std.specs.Prelude.{◌≡◌, ◌≤◌, length, IfSome};
ghost use Rattle.rule_reader.specs.Naming.{atom_or_member, begins_number, dotted, member_in, number_front, number_in, part_in, whole};

use crate::token::number_told;
use med_base::{MemberName, Name};
use text_reading::digit_run;

// The greatest number in a name.
const MOST_NUMBERED: u64 = 999_999;

/// The part of a plan that a word names. Numbers go from 1 to 999,999, without zeros in front.
#[tactic(auto, unfolding(crate::specs::Naming::part_in))]
pub fn part_in(word: &[u8]) -> Option<Name>
    ensures { result ≡ part_in word.now }
{
    match word.split_first() {
        Some((b'a', rest)) => atom_or_member(rest),
        Some((b'j', rest)) => whole(rest).map(Name::Join),
        Some((b'f', rest)) => whole(rest).map(Name::Fragment),
        _ => None,
    }
}

fn atom_or_member(bytes: &[u8]) -> Option<Name>
    ensures { result ≡ atom_or_member bytes.now }
{
    match whole(bytes) {
        Some(atom) => Some(Name::Atom(atom)),
        None => member_in(bytes).map(Name::Member),
    }
}

fn member_in(bytes: &[u8]) -> Option<MemberName>
    ensures { result ≡ member_in bytes.now }
{
    let (atom, taken) = dotted(bytes)?;
    let bytes = &bytes[taken..];
    let (group, taken) = dotted(bytes)?;
    let mirror = whole(&bytes[taken..])?;
    Some(MemberName {
        atom,
        group,
        mirror,
    })
}

/// The number that all bytes write.
pub fn whole(bytes: &[u8]) -> Option<u32>
    ensures { result ≡ whole bytes.now }
{
    match number_front(bytes) {
        Some((number, digits)) => {
            if digits == bytes.len() {
                Some(number)
            } else {
                None
            }
        }
        None => None,
    }
}

/// The number that bytes begin with, and how many bytes it takes with the dot after it.
pub fn dotted(bytes: &[u8]) -> Option<(u32, usize)>
    ensures value { result ≡ dotted bytes.now }
    ensures within { IfSome result (λ read. read.1 ≤ length bytes.now) }
{
    let (number, digits) = number_front(bytes)?;
    match bytes.get(digits) {
        Some(b'.') => Some((number, digits + 1)),
        _ => None,
    }
}

/// The number that bytes begin with, and how many digits it has.
fn number_front(bytes: &[u8]) -> Option<(u32, usize)>
    ensures value { result ≡ number_front bytes.now }
    ensures within { IfSome result (λ read. read.1 ≤ length bytes.now) }
{
    let digits = digit_run(bytes);
    match number_in(&bytes[..digits]) {
        Some(number) => Some((number, digits)),
        None => None,
    }
}

fn number_in(digits: &[u8]) -> Option<u32>
    ensures { result ≡ number_in digits.now }
{
    let number = number_told(digits);
    if begins_number(digits) && number <= MOST_NUMBERED {
        Some(number as u32)
    } else {
        None
    }
}

fn begins_number(digits: &[u8]) -> bool
    ensures { result ≡ begins_number digits.now }
{
    match digits.first() {
        Some(digit) => *digit != b'0',
        None => false,
    }
}
