//! Trees of joins: whatever the tree, it gives the solutions over its leaves.

ghost use Rattle.std.specs.Prelude.{◌≡◌, ℕ, Bool, true, ◌&&◌, List, ◌∷◌, ◌++◌, All};
ghost use Rattle.std.specs.List.{list_all};
ghost use Rattle.answer_theory.specs.Bags.{SameBag};
ghost use Rattle.answer_theory.specs.Bindings.{Binding, IsSound};
ghost use Rattle.answer_theory.specs.Solutions.{combinations, solutions, joined_rows, names, Binds, ReadsOnly, ReadsValues};
ghost use Rattle.answer_theory.specs.Trees.{Tree, given_rows, leaves, variables, tests, IsRowOf, IsPlaced, expansion, no_tables, Holds, ScansHold};

/// The solutions over leaves side by side are the joined solutions over each part, in the same order.
pub fn joins_of_solutions<X>()
    ensures { (joins : X → X → Bool) → IsSound joins → (us vs : List ℕ) (left right both : Binding X → Bool)
        → ReadsOnly us left → ReadsOnly vs right → (ls rs : List (List (Binding X))) → All (Binds us) (combinations ls)
        → All (Binds vs) (combinations rs)
        → solutions joins (λ b. (left b && right b) && both b) (ls ++ rs)
        ≡ joined_rows joins both (solutions joins left ls) (solutions joins right rs) }
{}

/// A tree whose tests are placed where their variables are bound gives the solutions over its leaves,
/// and its rows can be scanned.
pub fn trees_give_solutions<X>()
    ensures solutions { (joins : X → X → Bool) → IsSound joins
        → (tables : ℕ → List (Binding X)) (tree : Tree X) → IsPlaced tables tree
        → given_rows joins tables tree ≡ solutions joins (tests tree) (leaves tables tree) }
    ensures rows { (joins : X → X → Bool) → IsSound joins → (tables : ℕ → List (Binding X)) (tree : Tree X)
        → IsPlaced tables tree → All (IsRowOf (variables tree)) (given_rows joins tables tree) }
{}

/// A tree that scans finished fragments gives what the expanded tree gives; so a table that it filled
/// holds what the expanded tree gives.
pub fn fragments_expand<X>()
    ensures solutions { (joins : X → X → Bool) (tables : ℕ → List (Binding X)) (trees : ℕ → Tree X)
        → IsSound joins → (tree : Tree X) → IsPlaced tables tree → ScansHold joins tables trees tree
        → SameBag (given_rows joins tables tree)
        (solutions joins (tests (expansion trees tree)) (leaves no_tables (expansion trees tree))) }
    ensures holds { (joins : X → X → Bool) (tables : ℕ → List (Binding X)) (trees : ℕ → Tree X)
        (tree : Tree X) (table : List (Binding X))
        → IsPlaced tables tree → ScansHold joins tables trees tree → SameBag table (given_rows joins tables tree)
        → Holds joins (variables tree) table (expansion trees tree) }
    ensures rows { (joins : X → X → Bool) → IsSound joins
        → (vs : List ℕ) (table : List (Binding X)) (tree : Tree X) → Holds joins vs table tree
        → All (IsRowOf vs) table }
{}

/// A table that holds the solutions over some leaves stands for these leaves and their test.
pub fn rest_of_solutions<X>()
    ensures { (joins : X → X → Bool) → IsSound joins → (us vs : List ℕ) (done left both : Binding X → Bool)
        → ReadsOnly us done → ReadsOnly vs left → (table : List (Binding X)) (ls rs : List (List (Binding X)))
        → All (Binds us) (combinations ls) → All (Binds vs) (combinations rs) → All (IsRowOf us) table
        → SameBag table (solutions joins done ls)
        → SameBag (solutions joins (λ b. left b && both b) (table ∷ rs))
        (solutions joins (λ b. (done b && left b) && both b) (ls ++ rs)) }
{}

/// Which variables a test reads: those of its parts, and more than it needs. `C` is a comparison.
pub fn tests_read<X, C>()
    ensures values { (vs : List ℕ) (test : Binding X → Bool) → ReadsOnly vs test → ReadsValues test }
    ensures both { (vs : List ℕ) (p q : Binding X → Bool) → ReadsOnly vs p → ReadsOnly vs q
        → ReadsOnly vs (λ b. p b && q b) }
    ensures all { (vs : List ℕ) (test : C → Binding X → Bool) (cs : List C)
        → All (λ c. ReadsOnly vs (test c)) cs → ReadsOnly vs (λ b. list_all (λ c. test c b) cs) }
    ensures more { (vs ws : List ℕ) (test : Binding X → Bool) → ReadsOnly vs test
        → ((v : ℕ) → names vs v ≡ true → names ws v ≡ true) → ReadsOnly ws test }
{}
