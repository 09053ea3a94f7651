//! How the entries of a block are read: from where reading stopped last, or from the block's head on.

ghost use Rattle.std.specs.Prelude.{◌≡◌, ◌+◌, ◌<◌, ◌≤◌, ◌≢◌, ◌⊎◌, ◌^◌, ℕ, List, Some, IfErr, IfOk, IfSome, OnOk, drop, length, take};
ghost use Rattle.std.specs.Int.{w32, to_be_bytes};
ghost use Rattle.med_base.specs.Spills.{file_content};
ghost use Rattle.spill_blocks.specs.Places.{FailsAt, FailsFrom, FailsToOpen, ReadsFrom, left_to_read};
ghost use Rattle.spill_blocks.specs.Tables.{IsPlaced, first_place};
ghost use Rattle.spill_blocks.specs.Windows.{FailsToRead, KeepsFile};
ghost use Rattle.spill_blocks.specs.declared.entries.Kept.{Kept as Entry};
ghost use Rattle.spill_blocks.specs.declared.table.Place.{Place as Start};

use crate::encoding::HEAD;
use crate::entries::Entries;
use crate::fault::BlockFault;
use crate::form::EntryForm;
use crate::reading::{first_count, first_entry};
use crate::table::{Block, Place};
use crate::window::Windowed;
use med_base::Spill;
use std::alloc::Global;

/// Which entries are wanted, of a block of `count` entries whose rows have `width` values: those from position `from` on
/// and before `stop`.
#[derive(Clone, Copy)]
pub struct Wanted {
    pub form: EntryForm,
    pub width: u8,
    pub count: u32,
    pub from: u32,
    pub stop: u32,
}

// The number of entries with which a block begins at an offset.
fn count_at<F: Spill>(file: &mut Windowed<F>, start: u64) -> Result<Option<u32>, BlockFault>
    requires { start + 12 ≤ file.old.end }
    ensures keeps { KeepsFile file.old file.new }
    ensures told { IfSome (file_content file.old.file) (λ content. (count : ℕ) → count < 2 ^ 32 → take 4 (drop start content) ≡ to_be_bytes w32 count → IfOk result (λ found. found ≡ Some count)) }
    ensures fails { IfErr result (λ fault. FailsToRead fault file.old.file file.new.file) }
{
    if let Some(count) = first_count(file.held(start)) {
        return Ok(Some(count));
    }
    file.load(start)?;
    Ok(first_count(file.held(start)))
}

/// The place from which the entries of a block are read on to a position: where reading stopped last, if that is no later,
/// or else the first entry, behind the block's head.
pub fn place_before<F: Spill>(
    file: &mut Windowed<F>,
    block: Block,
    stopped: Option<Place>,
    from: u32,
) -> Result<Place, BlockFault>
    requires placed { IsPlaced file.old.end block }
    requires far { file.old.end < 2 ^ 64 }
    ensures keeps { KeepsFile file.old file.new }
    ensures low { IfOk result (λ place. place.next ≤ from) }
    ensures place { IfOk result (λ place. (stopped ≡ Some place) ⊎ (place ≡ first_place block)) }
    ensures fails { IfErr result (λ fault. FailsToOpen block fault file.old file.new) }
{
    if let Some(place) = stopped {
        if place.next <= from {
            return Ok(place);
        }
    }
    let kept = u64::from(block.count);
    match count_at(file, block.start)? {
        Some(count) if count == block.count => Ok(Place {
            next: 0,
            at: block.start + HEAD as u64,
        }),
        Some(count) => Err(BlockFault::Differs {
            kept,
            found: u64::from(count),
        }),
        None => Err(BlockFault::Differs { kept, found: 0 }),
    }
}

// Reads the entry at a place, or more of the file where the entry isn't held whole.
fn read_next<F: Spill>(
    alloc: Global,
    file: &mut Windowed<F>,
    wanted: Wanted,
    place: &mut Place,
    entries: &mut Entries,
) -> Result<(), BlockFault>
    requires more { place.old.next < wanted.stop }
    requires counted { wanted.stop ≤ wanted.count }
    requires inside { place.old.at ≤ file.old.end }
    ensures keeps { KeepsFile file.old file.new }
    ensures reads { (first : Start) (before : List Entry) → ReadsFrom wanted file.old first before place.old entries.old → ReadsFrom wanted file.new first before place.new entries.new }
    ensures falls { OnOk result (left_to_read wanted file.new place.new < left_to_read wanted file.old place.old) }
    ensures fails { IfErr result (λ fault. FailsAt wanted fault file.old place.old file.new) }
{
    let held = file.held(place.at);
    match first_entry(wanted.form, wanted.width, held) {
        Some((kept, rest)) => {
            let length = held.len() - rest.len();
            if wanted.from <= place.next {
                entries.push(alloc, &kept)?;
            }
            place.at += length as u64;
            place.next += 1;
            Ok(())
        }
        None => {
            if file.load(place.at)? {
                return Ok(());
            }
            Err(BlockFault::Differs {
                kept: u64::from(wanted.count),
                found: u64::from(place.next),
            })
        }
    }
}

/// Reads from a place on, and puts the entries that are wanted behind those that are there. The place becomes the one at
/// which it stopped.
pub fn read_on<F: Spill>(
    alloc: Global,
    file: &mut Windowed<F>,
    wanted: Wanted,
    place: &mut Place,
    entries: &mut Entries,
) -> Result<(), BlockFault>
    requires low { place.old.next ≤ wanted.from }
    requires high { wanted.from ≤ wanted.stop }
    requires counted { wanted.stop ≤ wanted.count }
    requires inside { place.old.at ≤ file.old.end }
    ensures keeps { KeepsFile file.old file.new }
    ensures reads { ReadsFrom wanted file.new place.old entries.old place.new entries.new }
    ensures whole { OnOk result (place.new.next ≡ wanted.stop) }
    ensures fails { IfErr result (λ fault. FailsFrom wanted fault file.old place.old file.new) }
{
    while place.next < wanted.stop {
        read_next(alloc, file, wanted, place, entries)?;
    }
    Ok(())
}
