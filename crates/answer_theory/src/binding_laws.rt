//! Bindings: entries that agree, first entries, and rows glued of two.

ghost use Rattle.std.specs.Prelude.{◌≡◌, ℕ, Bool, true, cond, ◌&&◌, ◌||◌, ◌++◌};
ghost use Rattle.answer_theory.specs.Bindings.{Binding, IsSound, meet, consistent, has_entry, value_of, first_entries, glue};

/// When the entries of rows agree, apart and together.
pub fn entries_agree<X>()
    ensures either_way { (joins : X → X → Bool) → IsSound joins → (b c : Binding X)
        → meet joins b c ≡ meet joins c b }
    ensures together { (joins : X → X → Bool) (b c : Binding X)
        → consistent joins (b ++ c) ≡ ((consistent joins b && consistent joins c) && meet joins b c) }
    ensures once { (joins : X → X → Bool) (b : Binding X) → consistent joins (first_entries b) ≡ true }
    ensures by_first_entries { (joins : X → X → Bool) → IsSound joins → (b c : Binding X)
        → consistent joins b ≡ true → consistent joins c ≡ true
        → meet joins (first_entries b) (first_entries c) ≡ meet joins b c }
{}

/// What is kept of a row by its first entries.
pub fn first_entries_kept<X>()
    ensures glued { (b c : Binding X) → first_entries (b ++ c) ≡ glue (first_entries b) (first_entries c) }
    ensures again { (b : Binding X) → first_entries (first_entries b) ≡ first_entries b }
    ensures values { (b : Binding X) (v : ℕ) → value_of (first_entries b) v ≡ value_of b v }
    ensures bound { (b : Binding X) (v : ℕ) → has_entry (first_entries b) v ≡ has_entry b v }
{}

/// What rows glued of two say of a variable; where the two meet, both say the same.
pub fn glued_values<X>()
    ensures values { (b c : Binding X) (v : ℕ)
        → value_of (glue b c) v ≡ cond (has_entry b v) (value_of b v) (value_of c v) }
    ensures bound { (b c : Binding X) (v : ℕ) → has_entry (glue b c) v ≡ (has_entry b v || has_entry c v) }
    ensures met { (joins : X → X → Bool) → IsSound joins → (b c : Binding X) (v : ℕ) → meet joins b c ≡ true
        → has_entry b v ≡ true → has_entry c v ≡ true → value_of b v ≡ value_of c v }
    ensures either_way { (joins : X → X → Bool) → IsSound joins → (b c : Binding X) (v : ℕ)
        → meet joins b c ≡ true → value_of (b ++ c) v ≡ value_of (c ++ b) v }
{}
