//! What the chosen rows bind, entry by entry.

ghost use Rattle.std.specs.Prelude.{◌≡◌, false, true, ◌++◌, ◌∷◌, [], take, length, IfOk, OnOk};
ghost use Rattle.answer_theory.specs.Bindings.{consistent};
ghost use Rattle.row_match.specs.Patterns.{entries_of, values_join};
ghost use Rattle.tuple_core.specs.Encoded.{value_seen};
ghost use Rattle.query_model.specs.Walks.{agrees_with, binding_of, entries_agree, entry_agrees};

use row_match::{Term, Valuation};
use std::alloc::AllocError;
use tuple_core::{EncodedValues, ValueRef, same_value};

/// A variable, with the value that stands in one of its columns.
#[derive(Drop)]
pub(crate) struct Entry<'a> {
    pub(crate) variable: u32,
    pub(crate) value: ValueRef<'a>,
}

/// Entries as what gives variables their values: the first entry of a variable counts.
#[derive(Drop)]
pub(crate) struct FirstEntries<'e, 'a> {
    pub(crate) entries: &'e [Entry<'a>],
}

impl Valuation for FirstEntries<'_, '_> {
    ghost binding = { λ firsts. binding_of firsts.entries.now };

    fn value_of(&self, variable: u32) -> Option<ValueRef<'_>> {
        for entry in self.entries {
            if entry.variable == variable {
                return Some(entry.value);
            }
        }
        None
    }
}

fn entry_agrees(entry: &Entry, variable: u32, value: ValueRef<'_>) -> bool
    ensures { result ≡ entry_agrees entry.now variable (value_seen value.entry) }
{
    entry.variable != variable || same_value(entry.value, value)
}

fn entries_agree(entries: &[Entry], variable: u32, value: ValueRef<'_>) -> bool
    ensures { result ≡ entries_agree entries.now variable (value_seen value.entry) }
{
    entries
        .iter()
        .all(|entry| entry_agrees(entry, variable, value))
}

// Whether the value agrees with its column's term; it is one entry more where that is a variable.
fn bind_value<'a>(
    term: &Term,
    value: ValueRef<'a>,
    entries: &mut Vec<Entry<'a>>,
) -> Result<bool, AllocError>
    requires { consistent values_join (binding_of entries.old.items) ≡ true }
    ensures agrees { IfOk result (λ agrees. agrees ≡ agrees_with (binding_of entries.old.items) (term.now ∷ []) (value_seen value.entry ∷ [])) }
    ensures bound { IfOk result (λ agrees. agrees ≡ true → binding_of entries.new.items ≡ binding_of entries.old.items ++ entries_of (term.now ∷ []) (value_seen value.entry ∷ [])) }
    ensures kept { IfOk result (λ agrees. agrees ≡ false → binding_of entries.new.items ≡ binding_of entries.old.items) }
{
    match term {
        Term::Constant(constant) => Ok(same_value(value, constant.seen())),
        Term::Variable(variable) => {
            let agrees = entries_agree(entries.as_slice(), *variable, value);
            if agrees {
                entries.push(Entry {
                    variable: *variable,
                    value,
                })?;
            }
            Ok(agrees)
        }
    }
}

/// Whether the row agrees with the terms and with the entries; its own entries are then put behind these.
pub(crate) fn bind_row<'a>(
    terms: &[Term],
    row: EncodedValues<'a>,
    entries: &mut Vec<Entry<'a>>,
) -> Result<bool, AllocError>
    requires { consistent values_join (binding_of entries.old.items) ≡ true }
    ensures agrees { IfOk result (λ agrees. agrees ≡ agrees_with (binding_of entries.old.items) terms.now row.entry) }
    ensures bound { IfOk result (λ agrees. agrees ≡ true → binding_of entries.new.items ≡ binding_of entries.old.items ++ entries_of terms.now row.entry) }
    ensures kept { OnOk result (take (length entries.old.items) (binding_of entries.new.items) ≡ binding_of entries.old.items) }
{
    let mut left = row;
    for term in terms {
        let Some(value) = left.next() else {
            return Ok(true);
        };
        if !bind_value(term, value, entries)? {
            return Ok(false);
        }
    }
    Ok(true)
}
