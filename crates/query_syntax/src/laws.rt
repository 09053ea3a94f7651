//! The law of the grammar: what is read is spelled so, and a refusal is the one offset where the text goes wrong.

ghost use Rattle.std.specs.Prelude.{false, ◌≡◌, ℕ, List, length, Some, None, Ok, Err};
ghost use Rattle.med_prelude.specs.Texts.{Bytes};
ghost use Rattle.text_reading.specs.Lexing.{AreTokensOf, tokens};
ghost use Rattle.text_reading.specs.Machines.{state_after};
ghost use Rattle.text_reading.specs.Runs.{begins_blank};
ghost use Rattle.query_syntax.specs.Grammar.{BreaksAt, Spells, IsViable};
ghost use Rattle.query_syntax.specs.Machine.{step};
ghost use Rattle.query_syntax.specs.Reading.{syntax_of};
ghost use Rattle.query_syntax.specs.Tokens.{lexemes_of, lexicon};
ghost use Rattle.query_syntax.specs.declared.machine.State.{State as AState};
ghost use Rattle.query_syntax.specs.declared.machine.State.TheVariants.{Start};
ghost use Rattle.query_syntax.specs.declared.syntax.Syntax.{Syntax as ASyntax};
ghost use Rattle.query_syntax.specs.declared.token.Token.{Token as AToken};

/// A text is read as a query exactly where its tokens spell that query with its offsets, and no tokens spell two.
/// Any other text is refused at the first byte of the first token, or of the first bytes that are no token, that
/// can't continue any query; or at its length where it ends too early. What the grammar's machine takes are exactly
/// the tokens that can be continued to a query, by tokens that some bytes are. The tokens of a text stand in it one
/// after the other, with nothing but blanks between them.
pub fn grammar_is_exact()
    ensures cut { (text : Bytes) → begins_blank text ≡ false → AreTokensOf lexicon 0 text (lexemes_of text) }
    ensures sound { (text : Bytes) (query : ASyntax) → syntax_of text ≡ Ok query
        → Spells (tokens (lexemes_of text)) query }
    ensures complete { (text : Bytes) (query : ASyntax) → Spells (tokens (lexemes_of text)) query
        → syntax_of text ≡ Ok query }
    ensures unique { (ts : List AToken) (query other : ASyntax) → Spells ts query → Spells ts other
        → query ≡ other }
    ensures exact { (text : Bytes) (at : ℕ) → syntax_of text ≡ Err at
        → BreaksAt (lexemes_of text) (length text) at }
    ensures live { (ts : List AToken) (state : AState) → state_after step Start ts ≡ Some state → IsViable ts }
    ensures dead { (ts : List AToken) → state_after step Start ts ≡ None → IsViable ts → ⊥ }
{}
