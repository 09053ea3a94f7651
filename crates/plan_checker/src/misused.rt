//! The checks that each atom and each fragment but the last is used once, by a fragment behind it.

ghost use Rattle.std.specs.Prelude.{◌≡◌, length, nat_le, position, IfOk};
ghost use Rattle.med_base.specs.declared.status.Part.TheVariants as part;
ghost use Rattle.text_reading.specs.Faults.{indices_where};
ghost use Rattle.text_reading.specs.Order.{least};
ghost use Rattle.plan_reader.specs.Locations.{in_part, is_up_to};
ghost use Rattle.plan_checker.specs.Uses.{early_from, is_early, is_missing, is_used_twice, misused_from};

use crate::unknown::{are_named, fragments_named};
use crate::uses::count_of;
use med_base::Part;
use plan_reader::{Fragment, Location, located};
use std::alloc::{AllocError, Global};

fn first_missing(used: &[u32], atoms: &[u32]) -> Option<usize>
    ensures { result ≡ position (is_missing used.now) atoms.now }
{
    atoms.iter().position(|atom| count_of(*atom, used) == 0)
}

fn first_used_twice(used: &[u32], atoms: &[u32]) -> Option<usize>
    ensures { result ≡ position (is_used_twice used.now) atoms.now }
{
    atoms.iter().position(|atom| count_of(*atom, used) > 1)
}

/// The index of the first fragment that is a leaf too often or too seldom: the last one isn't to be a leaf, each other one
/// once.
fn first_misused(used: &[u32], numbers: &[u32]) -> Option<usize>
    ensures { result ≡ least nat_le (misused_from used.now 0 numbers.now) }
{
    for (index, number) in numbers.iter().enumerate() {
        let wanted = if index + 1 == numbers.len() { 0 } else { 1 };
        if count_of(*number, used) != wanted {
            return Some(index);
        }
    }
    None
}

fn is_early(alloc: Global, before: &[u32], fragment: &Fragment) -> Result<bool, AllocError>
    ensures { IfOk result (λ early. early ≡ is_early before.now fragment.now) }
{
    let named = fragments_named(alloc, fragment)?;
    Ok(!are_named(before, named.as_slice()))
}

/// The index of the first fragment that names one that doesn't stand before it.
fn first_early(
    alloc: Global,
    numbers: &[u32],
    fragments: &[Fragment],
) -> Result<Option<usize>, AllocError>
    requires { length numbers.now ≡ length fragments.now }
    ensures { IfOk result (λ index. index ≡ least nat_le (early_from numbers.now 0 fragments.now)) }
{
    for (index, fragment) in fragments.iter().enumerate() {
        if is_early(alloc, &numbers[..index], fragment)? {
            return Ok(Some(index));
        }
    }
    Ok(None)
}

/// The location of the first atom that is no leaf.
#[tactic(auto, using(plan_reader::proofs::LocationLaws::least_in_part, text_reading::proofs::FaultLaws::least_index))]
pub fn missing_location(used: &[u32], atoms: &[u32]) -> Option<Location>
    ensures { result ≡ least is_up_to (in_part part.Atom (indices_where (is_missing used.now) 0 atoms.now)) }
{
    located(Part::Atom, first_missing(used, atoms))
}

/// The location of the first atom that is a leaf twice.
#[tactic(auto, using(plan_reader::proofs::LocationLaws::least_in_part, text_reading::proofs::FaultLaws::least_index))]
pub fn used_twice_location(used: &[u32], atoms: &[u32]) -> Option<Location>
    ensures { result ≡ least is_up_to (in_part part.Atom (indices_where (is_used_twice used.now) 0 atoms.now)) }
{
    located(Part::Atom, first_used_twice(used, atoms))
}

/// The location of the first fragment that is a leaf too often or too seldom.
#[tactic(auto, using(plan_reader::proofs::LocationLaws::least_in_part))]
pub fn misused_location(used: &[u32], numbers: &[u32]) -> Option<Location>
    ensures { result ≡ least is_up_to (in_part part.Fragment (misused_from used.now 0 numbers.now)) }
{
    located(Part::Fragment, first_misused(used, numbers))
}

/// The location of the first fragment that names one that doesn't stand before it.
#[tactic(auto, using(plan_reader::proofs::LocationLaws::least_in_part))]
pub fn early_location(
    alloc: Global,
    numbers: &[u32],
    fragments: &[Fragment],
) -> Result<Option<Location>, AllocError>
    requires { length numbers.now ≡ length fragments.now }
    ensures { IfOk result (λ found. found ≡ least is_up_to (in_part part.Fragment (early_from numbers.now 0 fragments.now))) }
{
    Ok(located(Part::Fragment, first_early(alloc, numbers, fragments)?))
}
