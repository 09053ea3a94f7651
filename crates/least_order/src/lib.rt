//! In which order to join items, so that what is joined stays small.
//!
//! An [`Item`] is a finished fragment or an atom, with its count of rows and its variables. An order costs the sum of
//! the sizes of what its joins make, each by the counts of its items alone. A call takes [`MOST_ITEMS`] at most.
//!
//! 1. [`least_order`] finds the first order of least cost, by a table over all sets of items. The table is the
//!    certificate in its answer, a [`LeastOrder`].
//! 2. [`check_order`] looks at nothing but the certificate: where it says yes, no order costs less.
//! 3. [`greedy_order`] takes at each place the best item that is left, which is quick and may cost more.
//!
//! The definitions: `specs/Items` and `Sets` (what shares a variable; sets as numbers), `Sizes` (the size of a set by
//! its linked parts), `Orders` (orders, their costs, which is first), `Certificates` and `Greedy`. What linked parts
//! are is said again in `Parts`, with [`parts_are_linked`] as the law that ties the two; [`constant_is_the_limit`] ties
//! the constant to the definitions. `Merging` and `Search` are what the code keeps on the way, and no public clause
//! names them.
#![tactic(auto)]

mod certificate;
mod greedy;
mod item;
mod item_set;
mod laws;
mod least;
mod order;
mod size;
#[cfg(test)]
mod tests;

pub use certificate::{LeastOrder, check_order};
pub use greedy::greedy_order;
pub use item::{Item, MOST_ITEMS};
pub use laws::{constant_is_the_limit, parts_are_linked};
pub use least::least_order;
