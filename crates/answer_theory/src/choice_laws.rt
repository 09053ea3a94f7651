//! Choices: the indices of one row of each atom whose rows agree.

ghost use Rattle.std.specs.Prelude.{◌≡◌, Bool, cond, ◌&&◌, List, [], ◌∷◌, ◌++◌, map, flat_map, length};
ghost use Rattle.answer_theory.specs.Bindings.{Binding, consistent, first_entries};
ghost use Rattle.answer_theory.specs.Solutions.{only, solutions};
ghost use Rattle.answer_theory.specs.Choices.{index_lists, items_at, picks, fitting_rows, choices, solutions_from};

/// What the choices bind, in their order, are the solutions over the leaves of what fits.
///
/// `Y` is an item of an atom's list: a row together with what it is to be matched with.
pub fn choices_are_solutions<X, Y>()
    ensures picks { (lists : List (List Y)) → map (items_at lists) (index_lists lists) ≡ picks lists }
    ensures solutions { (joins : X → X → Bool) (fits : Y → Bool) (binding : Y → Binding X)
        (test : Binding X → Bool) (lists : List (List Y))
        → map (λ ks. first_entries (flat_map binding (items_at lists ks))) (choices joins fits binding test lists)
        ≡ solutions joins test (map (fitting_rows fits binding) lists) }
    ensures count { (joins : X → X → Bool) (fits : Y → Bool) (binding : Y → Binding X)
        (test : Binding X → Bool) (lists : List (List Y))
        → length (choices joins fits binding test lists)
        ≡ length (solutions joins test (map (fitting_rows fits binding) lists)) }
{}

/// A walk by nested choice finds the solutions: where it begins, how it goes on, and where it ends.
pub fn walks_find_solutions<X, Y>()
    ensures begins { (joins : X → X → Bool) (fits : Y → Bool) (binding : Y → Binding X)
        (test : Binding X → Bool) (lists : List (List Y))
        → solutions_from joins fits binding test [] lists ≡ solutions joins test (map (fitting_rows fits binding) lists) }
    ensures goes { (joins : X → X → Bool) (fits : Y → Bool) (binding : Y → Binding X)
        (test : Binding X → Bool) (b : Binding X) (ys : List Y) (lists : List (List Y))
        → solutions_from joins fits binding test b (ys ∷ lists)
        ≡ flat_map (λ y. cond (fits y) (solutions_from joins fits binding test (b ++ binding y) lists) []) ys }
    ensures ends { (joins : X → X → Bool) (fits : Y → Bool) (binding : Y → Binding X)
        (test : Binding X → Bool) (b : Binding X)
        → solutions_from joins fits binding test b [] ≡ only (consistent joins b && test (first_entries b)) (first_entries b) }
{}
