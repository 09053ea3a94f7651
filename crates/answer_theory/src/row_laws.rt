//! Rows of values, in the order of a list of variables, and what they bind.

ghost use Rattle.std.specs.Prelude.{◌≡◌, ℕ, ◌<◌, ◌≤◌, Bool, true, List, ◌++◌, length, All};
ghost use Rattle.std.specs.List.{list_all};
ghost use Rattle.answer_theory.specs.Bindings.{Binding, IsSound, meet, value_of, first_entries, glue};
ghost use Rattle.answer_theory.specs.Solutions.{key, names};
ghost use Rattle.answer_theory.specs.Trees.{IsRowOf};
ghost use Rattle.answer_theory.specs.Rows.{over, values, binding_variables, AreDistinct, first_occurrences, glued_variables, lacked_values, shared_variables, both_join};

/// A row over its variables, and back.
pub fn rows_over<X>()
    ensures values { (vs : List ℕ) (row : List X) → length row ≡ length vs → values (over vs row) ≡ row }
    ensures named { (vs : List ℕ) (row : List X) → length row ≡ length vs → binding_variables (over vs row) ≡ vs }
    ensures back { (b : Binding X) → over (binding_variables b) (values b) ≡ b }
    ensures row { (vs : List ℕ) (row : List X) → AreDistinct vs → length row ≡ length vs
        → IsRowOf vs (over vs row) }
    ensures first_entries { (b : Binding X) → binding_variables (first_entries b) ≡ first_occurrences (binding_variables b) }
    ensures distinct { (vs : List ℕ) → AreDistinct (first_occurrences vs) }
    ensures names { (vs : List ℕ) (v : ℕ) → names (first_occurrences vs) v ≡ names vs v }
{}

/// Variables below a limit are no more than the limit where each stands once.
pub fn variables_few()
    ensures distinct { (limit : ℕ) (vs : List ℕ) → AreDistinct vs → All (λ v. v < limit) vs → length vs ≤ limit }
    ensures occurrences { (limit : ℕ) (vs : List ℕ) → All (λ v. v < limit) vs
        → length (first_occurrences vs) ≤ limit }
    ensures glued { (limit : ℕ) (us vs : List ℕ) → AreDistinct us → AreDistinct vs → All (λ v. v < limit) us
        → All (λ v. v < limit) vs → length (glued_variables us vs) ≤ limit }
{}

/// Glued rows: the left values, and then the right's values of variables that the left lacks.
pub fn rows_glue<X>()
    ensures values { (us vs : List ℕ) (l r : List X) → length l ≡ length us
        → glue (over us l) (over vs r) ≡ over (glued_variables us vs) (l ++ lacked_values us vs r) }
    ensures length { (us vs : List ℕ) (l r : List X) → length l ≡ length us → length r ≡ length vs
        → length (l ++ lacked_values us vs r) ≡ length (glued_variables us vs) }
    ensures distinct { (us vs : List ℕ) → AreDistinct us → AreDistinct vs → AreDistinct (glued_variables us vs) }
{}

/// Rows meet exactly where each shared variable has values that join. Then they have one key; and rows
/// of one key meet where the key's values join with themselves.
pub fn rows_meet<X>()
    ensures shared { (joins : X → X → Bool) (us vs : List ℕ) (l r : List X) → AreDistinct us
        → AreDistinct vs → length l ≡ length us → length r ≡ length vs
        → meet joins (over us l) (over vs r)
        ≡ list_all (λ v. both_join joins (value_of (over us l) v) (value_of (over vs r) v)) (shared_variables us vs) }
    ensures equal_keys { (joins : X → X → Bool) → IsSound joins → (us vs : List ℕ) (l r : List X)
        → AreDistinct us → AreDistinct vs → length l ≡ length us → length r ≡ length vs
        → meet joins (over us l) (over vs r) ≡ true
        → key (shared_variables us vs) (over us l) ≡ key (shared_variables us vs) (over vs r) }
    ensures by_keys { (joins : X → X → Bool) (us vs : List ℕ) (l r : List X) → AreDistinct us
        → AreDistinct vs → length l ≡ length us → length r ≡ length vs
        → list_all (λ v. both_join joins (value_of (over us l) v) (value_of (over us l) v)) (shared_variables us vs)
        ≡ true → key (shared_variables us vs) (over us l) ≡ key (shared_variables us vs) (over vs r)
        → meet joins (over us l) (over vs r) ≡ true }
{}
