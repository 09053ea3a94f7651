//! The law of trees: what is read is spelled so.

ghost use Rattle.std.specs.Prelude.{◌≡◌, false, Some, List};
ghost use Rattle.med_prelude.specs.Texts.{Bytes};
ghost use Rattle.text_reading.specs.Lexing.{AreTokensOf, tokens};
ghost use Rattle.join_trees.specs.Machine.{tree_of};
ghost use Rattle.join_trees.specs.Shapes.{Shape};
ghost use Rattle.join_trees.specs.Tokens.{is_padded, lexemes_of, lexicon, tree_tokens};

/// A text is read as a tree exactly where its tokens spell that tree, and no tokens spell two. The tokens of a text stand
/// in it one after the other, with nothing but spaces between them; a text with a space in front or at its end spells none.
#[tactic(auto, using(crate::proofs::TreeLaws::cut, crate::proofs::TreeLaws::sound, crate::proofs::TreeLaws::complete, crate::proofs::TreeLaws::unique))]
pub fn trees_are_spelled()
    ensures cut { (text : Bytes) → is_padded text ≡ false → AreTokensOf lexicon 0 text (lexemes_of text) }
    ensures sound { (text : Bytes) (tree : Shape) → tree_of text ≡ Some tree → tokens (lexemes_of text) ≡ tree_tokens tree }
    ensures complete { (text : Bytes) (tree : Shape) → tokens (lexemes_of text) ≡ tree_tokens tree → tree_of text ≡ Some tree }
    ensures unique { (tree other : Shape) → tree_tokens tree ≡ tree_tokens other → tree ≡ other }
{}
