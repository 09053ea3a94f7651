//! Orders: the leaves in another order give the same bag of values.

ghost use Rattle.std.specs.Prelude.{◌≡◌, ℕ, Bool, List, ◌∷◌, ◌++◌, map};
ghost use Rattle.answer_theory.specs.Bags.{SameBag};
ghost use Rattle.answer_theory.specs.Bindings.{Binding, IsSound};
ghost use Rattle.answer_theory.specs.Solutions.{solutions, ReadsValues, valuations, keys};
ghost use Rattle.answer_theory.specs.Trees.{Tree, given_rows, leaves, tests, IsPlaced, expansion, no_tables, ScansHold};

/// Leaves of the same numbers in another order: the same values of each variable, and the same keys,
/// each as often.
pub fn leaves_reordered<X>()
    ensures values { (joins : X → X → Bool) → IsSound joins → (test : Binding X → Bool) → ReadsValues test
        → (leaf : ℕ → List (Binding X)) (ks js : List ℕ) → SameBag ks js
        → SameBag (valuations (solutions joins test (map leaf ks)))
        (valuations (solutions joins test (map leaf js))) }
    ensures keys { (joins : X → X → Bool) → IsSound joins → (test : Binding X → Bool) → ReadsValues test
        → (leaf : ℕ → List (Binding X)) (ks js : List ℕ) → SameBag ks js → (vs : List ℕ)
        → SameBag (keys vs (solutions joins test (map leaf ks)))
        (keys vs (solutions joins test (map leaf js))) }
{}

/// What the last tree of a plan gives are the solutions over all atoms, in whatever order its leaves
/// stand and however its fragments were cut.
pub fn plans_give_solutions<X>()
    ensures { (joins : X → X → Bool) → IsSound joins
        → (tables : ℕ → List (Binding X)) (trees : ℕ → Tree X) (tree : Tree X) → IsPlaced tables tree
        → ScansHold joins tables trees tree → (test : Binding X → Bool) → ReadsValues test
        → ((b : Binding X) → tests (expansion trees tree) b ≡ test b)
        → (leaf : ℕ → List (Binding X)) (ks js : List ℕ)
        → leaves no_tables (expansion trees tree) ≡ map leaf ks → SameBag ks js
        → SameBag (valuations (given_rows joins tables tree)) (valuations (solutions joins test (map leaf js))) }
{}

/// A leaf that grows, and a leaf of the same rows in another order.
pub fn leaves_grow<X>()
    ensures grown { (joins : X → X → Bool) (test : Binding X → Bool) (ps : List (List (Binding X)))
        (ls ms : List (Binding X)) (ss : List (List (Binding X)))
        → SameBag (solutions joins test (ps ++ (ls ++ ms) ∷ ss))
        (solutions joins test (ps ++ ls ∷ ss) ++ solutions joins test (ps ++ ms ∷ ss)) }
    ensures bags { (joins : X → X → Bool) (test : Binding X → Bool) (ps : List (List (Binding X)))
        (ls ms : List (Binding X)) (ss : List (List (Binding X)))
        → SameBag ls ms
        → SameBag (solutions joins test (ps ++ ls ∷ ss)) (solutions joins test (ps ++ ms ∷ ss)) }
{}
