//! Trees of joins, as plans have them: what they are, and the tree that a text spells.
//!
//! A `Tree` has atoms and fragments as its `Leaf`s and joins by their numbers; it lies as the list of its `Node`s, and
//! contracts see it as a tree (`specs/Shapes.antt`, `Shape`). `read_tree` reads a text such as `j2(j1(a1, a2), f1)`. No
//! code here recurses, so a tree may be as deep as its text is long.
//!
//! Definitions: `specs/Shapes.antt`, trees and their nodes; `specs/Tokens.antt`, how a tree is spelled;
//! `specs/Machine.antt`, the grammar as a machine, and `tree_of`, the tree that a text spells.
//!
//! Law: `trees_are_spelled`, a text is read as a tree exactly where its tokens spell that tree.
#![tactic(auto)]

mod laws;
mod machine;
mod reading;
mod stack;
#[cfg(test)]
mod tests;
mod token;
mod tree;

pub use laws::trees_are_spelled;
pub use reading::read_tree;
pub use stack::Stack;
pub use tree::{Leaf, Node, Tree};
