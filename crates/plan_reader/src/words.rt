//! What the words and keys of a plan say.

ghost use Rattle.std.specs.Prelude.{◌≡◌, codes, option_map};
ghost use Rattle.std.specs.List.{list_all};
ghost use Rattle.std.specs.Char.{is_ascii_digit};
ghost use Rattle.plan_reader.specs.Words.{amount_behind, amount_in, fragment_named, fragment_number, group_behind, group_in, is_amount, join_named, join_number, method_in, policy_in, replan_in, told_number};
ghost use Rattle.plan_reader.specs.declared.plan.Policy.TheVariants as policy;
ghost use Rattle.plan_reader.specs.declared.plan.Replan.TheVariants as replan;

use crate::plan::{Policy, Replan};
use med_base::{GroupName, Name};
use rule_reader::{Method, dotted, number_told, part_in, whole};

/// The number, where it isn't below zero; the greatest one stands for all below.
pub fn told_number(number: i64) -> u64
    ensures { result ≡ told_number number }
{
    if number < 0 { u64::MAX } else { number as u64 }
}

#[tactic(auto, unfolding(crate::specs::Words::method_in))]
pub fn method_in(word: &str) -> Option<Method>
    ensures { result ≡ method_in word.now }
{
    match word {
        "left" => Some(Method::Left),
        "symmetric" => Some(Method::Symmetric),
        _ => None,
    }
}

fn are_digits(bytes: &[u8]) -> bool
    ensures { result ≡ list_all is_ascii_digit bytes.now }
{
    bytes.iter().all(|byte| byte.is_ascii_digit())
}

fn is_amount(digits: &[u8]) -> bool
    ensures { result ≡ is_amount digits.now }
{
    !digits.is_empty() && are_digits(digits)
}

fn amount_in(digits: &[u8]) -> Option<u64>
    ensures { result ≡ amount_in digits.now }
{
    if is_amount(digits) {
        Some(number_told(digits))
    } else {
        None
    }
}

/// The number behind a front.
fn amount_behind(front: &[u8], word: &[u8]) -> Option<u64>
    ensures { result ≡ amount_behind front.now word.now }
{
    match word.strip_prefix(front) {
        Some(digits) => amount_in(digits),
        None => None,
    }
}

fn race_in(word: &str) -> Option<Policy>
    ensures { result ≡ option_map policy.Race (amount_behind (codes "race:") word.now) }
{
    match amount_behind(b"race:".as_slice(), word.as_bytes()) {
        Some(rows) => Some(Policy::Race(rows)),
        None => None,
    }
}

#[tactic(auto, unfolding(crate::specs::Words::policy_in))]
pub fn policy_in(word: &str) -> Option<Policy>
    ensures { result ≡ policy_in word.now }
{
    match word {
        "only" => Some(Policy::Only),
        "first" => Some(Policy::First),
        "all" => Some(Policy::All),
        _ => race_in(word),
    }
}

fn off_in(word: &str) -> Option<Replan>
    ensures { result ≡ option_map replan.Off (amount_behind (codes "off:") word.now) }
{
    match amount_behind(b"off:".as_slice(), word.as_bytes()) {
        Some(factor) => Some(Replan::Off(factor)),
        None => None,
    }
}

#[tactic(auto, unfolding(crate::specs::Words::replan_in))]
pub fn replan_in(word: &str) -> Option<Replan>
    ensures { result ≡ replan_in word.now }
{
    match word {
        "never" => Some(Replan::Never),
        "always" => Some(Replan::Always),
        _ => off_in(word),
    }
}

fn fragment_named(part: Name) -> Option<u32>
    ensures { result ≡ fragment_named part }
{
    match part {
        Name::Fragment(fragment) => Some(fragment),
        Name::Join(_) | Name::Atom(_) | Name::Member(_) => None,
    }
}

fn join_named(part: Name) -> Option<u32>
    ensures { result ≡ join_named part }
{
    match part {
        Name::Join(join) => Some(join),
        Name::Fragment(_) | Name::Atom(_) | Name::Member(_) => None,
    }
}

/// The number of the fragment that a word names.
pub fn fragment_number(word: &[u8]) -> Option<u32>
    ensures { result ≡ fragment_number word.now }
{
    match part_in(word) {
        Some(part) => fragment_named(part),
        None => None,
    }
}

/// The number of the join that a word names.
pub fn join_number(word: &[u8]) -> Option<u32>
    ensures { result ≡ join_number word.now }
{
    match part_in(word) {
        Some(part) => join_named(part),
        None => None,
    }
}

fn group_behind(bytes: &[u8]) -> Option<GroupName>
    ensures { result ≡ group_behind bytes.now }
{
    let (atom, taken) = dotted(bytes)?;
    let group = whole(&bytes[taken..])?;
    Some(GroupName { atom, group })
}

/// The group that a word names, such as `a1.2`.
pub fn group_in(word: &[u8]) -> Option<GroupName>
    ensures { result ≡ group_in word.now }
{
    match word.split_first() {
        Some((b'a', rest)) => group_behind(rest),
        _ => None,
    }
}
