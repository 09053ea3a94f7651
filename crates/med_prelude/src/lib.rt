//! What every layer of the mediator needs, and nothing that only one of them does.
//!
//! - [`Listed`] is the one list type: a vector that contracts see as the list of its items.
//! - [`Text`] is UTF-8 of any length, which contracts see as its bytes.
//! - [`is_name`], with [`starts_name`] and [`continues_name`], says what a name is, alike in a catalogue, a query and a plan.
//! - [`ReadFault`] is what a reader of a text answers where it gives no value; `?` carries want of memory into it.
//! - [`raise`] counts one more of what only rises, such as faults and waits.
//!
//! The definitions are in `specs/`: `Lists`, `Texts` (with the short names `Bytes` and `ToldBytes` that all other
//! definitions use), `Names`, `Reading` (what a reader's answer says of its definition) and `Counts`.
#![tactic(auto)]

mod listing;
mod naming;
mod reading;
mod saturating;
mod text;

pub use listing::Listed;
pub use naming::{continues_name, is_name, starts_name};
pub use reading::ReadFault;
pub use saturating::raise;
pub use text::Text;
