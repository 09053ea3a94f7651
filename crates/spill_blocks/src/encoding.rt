//! The bytes of a block.

ghost use Rattle.std.specs.Prelude.{◌≡◌, ◌+◌, ◌<◌, ◌≤◌, ◌^◌, ◌++◌, All, IfOk, OnOk, length};
ghost use Rattle.spill_blocks.specs.Blocks.{block_encoding, entries_encoding, entry_encoding, greatest_entry};
ghost use Rattle.spill_blocks.specs.Listings.{listed};
ghost use Rattle.spill_blocks.specs.Reading.{FitsKept};

use crate::entries::Kept;
use crate::form::EntryForm;
use crate::listing::Listing;
use std::alloc::{AllocError, Global};

/// The bytes in front of the entries of a block: their number and their length.
pub const HEAD: usize = 12;

// The bytes in front of the row of a join's entry.
const NUMBERS: usize = 16;

// Numbers of 64 bits are below 2^64.
fn are_small(a: u64, d: u64)
    ensures a { a < 2 ^ 64 }
    ensures d { d < 2 ^ 64 }
{
    let _numbers = (a, d);
}

// How many bytes stand for an entry.
#[tactic(auto, unfolding(crate::specs::Blocks::entry_encoding))]
fn entry_length(form: EntryForm, kept: &Kept<'_>) -> usize
    ensures value { result ≡ length (entry_encoding form kept.now) }
    ensures bound { result ≤ greatest_entry }
    ensures fits { FitsKept kept.now }
{
    are_small(kept.a, kept.d);
    let row = kept.row.bytes().len();
    match form {
        EntryForm::Join => NUMBERS + row,
        EntryForm::Spool => row,
    }
}

// How many bytes stand for the entries.
fn entries_length(form: EntryForm, listing: Listing<'_>) -> usize
    requires { length (listed listing) < 2 ^ 32 }
    ensures value { result ≡ length (entries_encoding form (listed listing.entry)) }
    ensures bound { result ≤ 2 ^ 56 }
    ensures fits { All FitsKept (listed listing.entry) }
{
    let mut length = 0;
    for index in 0..listing.len() {
        let Some(kept) = listing.get(index) else {
            unreachable!();
        };
        length += entry_length(form, &kept);
    }
    length
}

#[tactic(auto, unfolding(crate::specs::Blocks::entry_encoding))]
fn put_entry(form: EntryForm, kept: &Kept<'_>, into: &mut Vec<u8>) -> Result<(), AllocError>
    ensures { OnOk result (into.new.items ≡ into.old.items ++ entry_encoding form kept.now) }
{
    match form {
        EntryForm::Join => {
            into.extend_from_slice(&kept.a.to_be_bytes())?;
            into.extend_from_slice(&kept.d.to_be_bytes())?;
            into.extend_from_slice(kept.row.bytes())?;
            Ok(())
        }
        EntryForm::Spool => {
            into.extend_from_slice(kept.row.bytes())?;
            Ok(())
        }
    }
}

fn put_entries(form: EntryForm, listing: Listing<'_>, into: &mut Vec<u8>) -> Result<(), AllocError>
    ensures { OnOk result (into.new.items ≡ into.old.items ++ entries_encoding form (listed listing.entry)) }
{
    for index in 0..listing.len() {
        let Some(kept) = listing.get(index) else {
            unreachable!();
        };
        put_entry(form, &kept, into)?;
    }
    Ok(())
}

/// The bytes of the block of these entries.
#[tactic(auto, unfolding(crate::specs::Blocks::block_encoding))]
pub fn block_bytes(
    alloc: Global,
    form: EntryForm,
    listing: Listing<'_>,
) -> Result<Vec<u8>, AllocError>
    requires { length (listed listing) < 2 ^ 32 }
    ensures bytes { IfOk result (λ bytes. bytes.items ≡ block_encoding form (listed listing.entry)) }
    ensures fits { OnOk result (All FitsKept (listed listing.entry)) }
{
    let count = listing.len() as u32;
    let length = entries_length(form, listing);
    let mut bytes = Vec::with_capacity(alloc, HEAD + length)?;
    bytes.extend_from_slice(&count.to_be_bytes())?;
    bytes.extend_from_slice(&(length as u64).to_be_bytes())?;
    put_entries(form, listing, &mut bytes)?;
    Ok(bytes)
}
