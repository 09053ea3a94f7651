//! What gives variables their values, and a row over its variables as one that does.

ghost use Rattle.std.specs.Prelude.{◌≡◌, length, option_map, slice_get};
ghost use Rattle.answer_theory.specs.Bindings.{value_of};
ghost use Rattle.answer_theory.specs.Rows.{over};
ghost use Rattle.tuple_core.specs.Encoded.{value_seen};

use crate::vars::{position_of, value_at};
use tuple_core::{Value, ValueRef};

/// What gives variables their values: contracts see it as a binding.
pub trait Valuation {
    ghost use Rattle.answer_theory.specs.Bindings.{Binding};
    ghost use Rattle.tuple_core.specs.declared.value.Value.{Value};

    ghost binding: { Self → Binding Value };

    /// The variable's value, where it has one.
    fn value_of(&self, variable: u32) -> Option<ValueRef<'_>>
        ensures { option_map value_seen result ≡ value_of (binding self.now) variable };
}

/// A row's values, one for each of its variables.
#[derive(Drop)]
pub(crate) struct RowOver<'a> {
    pub(crate) variables: &'a [u32],
    pub(crate) values: &'a [Value],
    ghost width: { length values.now ≡ length variables.now },
}

fn seen_at(values: &[Value], position: usize) -> Option<ValueRef<'_>>
    ensures { option_map value_seen result ≡ slice_get values.now position }
{
    let value = value_at(values, position)?;
    Some(value.seen())
}

impl Valuation for RowOver<'_> {
    ghost binding = { λ row. over row.variables.now row.values.now };

    fn value_of(&self, variable: u32) -> Option<ValueRef<'_>> {
        match position_of(self.variables, variable) {
            Some(position) => seen_at(self.values, position),
            None => None,
        }
    }
}
