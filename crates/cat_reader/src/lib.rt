//! The reader of catalogues: from a text to its relations, or to the one location where the text is refused.
//!
//! `read_catalogue` gives a `Catalogue`, a list of `Relation`s, or a `CatalogueFault`: the number of the first check that the
//! text breaks, with the least relation and item that break it. What a text says is `catalogue_of` in `specs/Catalogue.antt`:
//! one list of checks, each with everywhere that it is broken (`Where`, a relation and its column or group), and the
//! relations that the text's tables say. The checks stand in `specs/Forms.antt` (each entry is there, known and of its form),
//! `specs/Doubled.antt` (names) and `specs/Limits.antt` (sizes, with all limits by name); what a table says of its relation in
//! `specs/Relations.antt`. What accepted relations keep to is `KeepsLimits` in `specs/Accepted.antt`.
//!
//! Laws: `least_fault_is_told` (what is told is the first broken check at its least location) and `first_check_is_toml`.
#![tactic(auto)]

mod catalogue;
mod columns;
mod doubled;
mod forms;
mod groups;
mod limits;
mod locations;
mod reading;
mod relations;

pub use catalogue::{Catalogue, CatalogueFault, Relation};
pub use reading::{LONGEST_CATALOGUE, first_check_is_toml, least_fault_is_told, read_catalogue};

#[cfg(test)]
mod tests;
