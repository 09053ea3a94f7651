//! The law of the grammar: what is read is spelled so, and a refusal is the one offset where the text goes wrong.

ghost use Rattle.std.specs.Prelude.{◌≡◌, ◌<◌, ◌≤◌, ℕ, List, false, length, Ok, Err};
ghost use Rattle.med_prelude.specs.Texts.{Bytes};
ghost use Rattle.text_reading.specs.Checks.{broken_at};
ghost use Rattle.text_reading.specs.Lexing.{AreTokensOf, lexemes_from, tokens};
ghost use Rattle.text_reading.specs.declared.checks.Broken.{Broken as ABroken};
ghost use Rattle.rule_reader.specs.Grammar.{Spells, no_limits, rule_limits};
ghost use Rattle.rule_reader.specs.Laws.{IsRefused};
ghost use Rattle.rule_reader.specs.Machine.{over_a_limit};
ghost use Rattle.rule_reader.specs.Reading.{longest_rule, rule_of};
ghost use Rattle.rule_reader.specs.Tokens.{begins_space, lexemes_of, lexicon};
ghost use Rattle.rule_reader.specs.declared.rule.Rule.{Rule as ARule};
ghost use Rattle.rule_reader.specs.declared.token.Token.{Token as AToken};

/// A text of at most 4,096 bytes is read as a rule exactly where its tokens spell that rule and the rule keeps the
/// limits; no tokens spell two rules, within limits or not. Any other text is refused where its tokens break the
/// grammar of rules within the limits: as no rule where they break that of rules of any depth and any numbers there
/// too, and as over a limit where the token there is the first past one. A longer text is over a limit. The tokens of
/// a text stand in it one after the other, with nothing but spaces between them; spaces in front of the first one, or
/// behind the last, count as a token that no rule has.
pub fn grammar_is_exact()
    ensures cut { (text : Bytes) → begins_space text ≡ false
        → AreTokensOf lexicon 0 text (lexemes_from lexicon 0 0 text) }
    ensures long { (text : Bytes) → longest_rule < length text
        → rule_of text ≡ Err (broken_at over_a_limit longest_rule) }
    ensures sound { (text : Bytes) (rule : ARule) → rule_of text ≡ Ok rule
        → (length text ≤ longest_rule) × Spells rule_limits (tokens (lexemes_of text)) rule }
    ensures complete { (text : Bytes) (rule : ARule) → length text ≤ longest_rule
        → Spells rule_limits (tokens (lexemes_of text)) rule → rule_of text ≡ Ok rule }
    ensures unique { (ts : List AToken) (rule other : ARule) → Spells no_limits ts rule → Spells no_limits ts other
        → rule ≡ other }
    ensures exact { (text : Bytes) (told : ABroken ℕ) → length text ≤ longest_rule → rule_of text ≡ Err told
        → IsRefused text told }
{}
