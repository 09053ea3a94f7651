//! Names that stand twice.

ghost use Rattle.std.specs.Prelude.{◌≡◌, not, nat_le, IfOk};
ghost use Rattle.plan_reader.specs.Items.{AllPut, doubled, has_doubled};
ghost use Rattle.text_reading.specs.Order.{least};

use indexmap::IndexSet;
use med_prelude::Listed;
use std::alloc::{AllocError, Global};
use std::hash::Hash;

/// Puts the names into the set, up to one that is there already; answers whether none was.
fn put_all<K: Hash + Eq + Copy>(seen: &mut IndexSet<K>, names: &[K]) -> Result<bool, AllocError>
    ensures fresh { IfOk result (λ fresh. fresh ≡ not (has_doubled K.eq seen.old.keys names.now)) }
    ensures kept { IfOk result (λ fresh. AllPut fresh seen.old.keys names.now seen.new.keys) }
{
    for name in names {
        let (_, is_new) = seen.insert_full(*name)?;
        if !is_new {
            return Ok(false);
        }
    }
    Ok(true)
}

/// The index of the first item one of whose names stands before it.
pub fn first_doubled<K: Hash + Eq + Copy>(
    alloc: Global,
    lists: &[Listed<K>],
) -> Result<Option<usize>, AllocError>
    ensures { IfOk result (λ index. index ≡ least nat_le (doubled K.eq lists.now)) }
{
    let mut seen = IndexSet::new(alloc);
    for (index, names) in lists.iter().enumerate() {
        if !put_all(&mut seen, names.as_slice())? {
            return Ok(Some(index));
        }
    }
    Ok(None)
}
