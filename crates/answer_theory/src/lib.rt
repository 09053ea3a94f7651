//! What an answer is, and the laws about it, over any type of values and any test of which values join.
//!
//! The definitions, each file of `specs/` over those before it:
//!
//! - `Bags`: lists in which it doesn't count where an item stands.
//! - `Bindings`: entries, each a variable with a value; which agree, which count first, and how two rows are glued.
//! - `Solutions`: what is found when one row is taken of each leaf, in each way, and rows that agree are kept.
//! - `Trees`: trees of joins over leaves, and tables that hold what a tree gives.
//! - `Choices`: the same solutions by nested choice, over the indices of rows.
//! - `Pairs`: pairs of rows of two sides. `Rows`: rows as the code keeps them, values in the order of variables.
//!
//! A law is the contract of a function that does nothing: a proof has it from a call of the function, or takes
//! the lemma that the function's answer in `proofs/` names. The main ones: [`joins_of_solutions`] (solutions side by
//! side are joined), [`trees_give_solutions`] and [`fragments_expand`] (whatever the tree), [`plans_give_solutions`]
//! (in whatever order), [`choices_are_solutions`] and [`walks_find_solutions`] (by nested choice), [`one_pair_more`]
//! (a join gives each pair once). Worked examples stand in `proofs/Examples.antt`.
#![tactic(auto)]

mod bag_laws;
mod binding_laws;
mod choice_laws;
mod order_laws;
mod pair_laws;
mod row_laws;
mod tree_laws;

pub use bag_laws::{bags_alike, bags_grow, bags_made, bags_of_numbers, bags_tell, one_sorted_list};
pub use binding_laws::{entries_agree, first_entries_kept, glued_values};
pub use choice_laws::{choices_are_solutions, walks_find_solutions};
pub use order_laws::{leaves_grow, leaves_reordered, plans_give_solutions};
pub use pair_laws::{joined_are_pairs, one_pair_more, pairs_grow, pairs_parted};
pub use row_laws::{rows_glue, rows_meet, rows_over, variables_few};
pub use tree_laws::{
    fragments_expand, joins_of_solutions, rest_of_solutions, tests_read, trees_give_solutions,
};
