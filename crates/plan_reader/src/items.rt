//! Lists of what a plan's tables say, item by item.

ghost use Rattle.std.specs.List.{filter_map};
ghost use Rattle.std.specs.Prelude.{◌≡◌, map, is_none, position, IfOk};
ghost use Rattle.plan_reader.specs.Items.{present};

use med_prelude::Listed;
use std::alloc::{AllocError, Global};

/// What is read from a value of a list, or from an entry of a table; nothing where it isn't of its form.
pub trait Item<F>: Sized {
    ghost use Rattle.std.specs.Prelude.{Option};

    ghost item_in: { F → Option Self };

    fn read(alloc: Global, from: &F) -> Result<Option<Self>, AllocError>
        ensures { IfOk result (λ item. item ≡ item_in from.now) };
}

/// What is read from each.
pub fn read_items<F, T: Item<F> + Drop>(
    alloc: Global,
    all: &[F],
) -> Result<Listed<Option<T>>, AllocError>
    ensures { IfOk result (λ items. items ≡ map T.item_in all.now) }
{
    let mut items = Listed::new(alloc);
    for from in all {
        items.push(T::read(alloc, from)?)?;
    }
    Ok(items)
}

/// The index of the first one that couldn't be read.
pub fn first_missing<T>(items: &[Option<T>]) -> Option<usize>
    ensures { result ≡ position is_none items.now }
{
    items.iter().position(|item| item.is_none())
}

/// Those that could be read.
pub fn present<T: Drop>(alloc: Global, items: Listed<Option<T>>) -> Result<Listed<T>, AllocError>
    ensures { IfOk result (λ found. found ≡ present items) }
{
    let mut found = Listed::new(alloc);
    for item in items.into_vec() {
        if let Some(item) = item {
            found.push(item)?;
        }
    }
    Ok(found)
}
