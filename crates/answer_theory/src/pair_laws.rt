//! Pairs of rows of two sides: how a join gives each pair once.

ghost use Rattle.std.specs.Prelude.{◌≡◌, Bool, false, not, ◌&&◌, ◌||◌, List, [], ◌∷◌, ◌++◌, filter, flat_map};
ghost use Rattle.answer_theory.specs.Bags.{SameBag};
ghost use Rattle.answer_theory.specs.Bindings.{Binding, meet, glue};
ghost use Rattle.answer_theory.specs.Solutions.{only, joined_rows};
ghost use Rattle.answer_theory.specs.Pairs.{pairs, AlikeOn};

/// The pairs of a test, parted by another test; what another test adds; and tests that answer alike.
pub fn pairs_parted<L, R>()
    ensures parted { (p t : L → R → Bool) (ls : List L) (rs : List R)
        → SameBag (pairs p ls rs)
        (pairs (λ l r. p l r && t l r) ls rs ++ pairs (λ l r. p l r && not (t l r)) ls rs) }
    ensures added { (p t : L → R → Bool) (ls : List L) (rs : List R)
        → SameBag (pairs (λ l r. p l r || t l r) ls rs)
        (pairs p ls rs ++ pairs (λ l r. not (p l r) && t l r) ls rs) }
    ensures alike { (p q : L → R → Bool) (ls : List L) (rs : List R) → AlikeOn ls rs p q
        → pairs p ls rs ≡ pairs q ls rs }
{}

/// A test that is true at one pair more adds exactly that pair.
///
/// The pair is told by a test of each side that one row alone meets, as its arrival number.
pub fn one_pair_more<L, R>()
    ensures { (p q : L → R → Bool) (s : L → Bool) (t : R → Bool) (l : L) (r : R) (ls : List L) (rs : List R)
        → filter s ls ≡ l ∷ [] → filter t rs ≡ r ∷ [] → p l r ≡ false
        → AlikeOn ls rs q (λ x y. p x y || (s x && t y)) → SameBag (pairs q ls rs)
        ((l, r) ∷ pairs p ls rs) }
{}

/// The pairs of sides that grow, that are filtered, and that are the same bags.
pub fn pairs_grow<L, R>()
    ensures left { (p : L → R → Bool) (ls ms : List L) (rs : List R)
        → pairs p (ls ++ ms) rs ≡ pairs p ls rs ++ pairs p ms rs }
    ensures right { (p : L → R → Bool) (ls : List L) (rs ss : List R)
        → SameBag (pairs p ls (rs ++ ss)) (pairs p ls rs ++ pairs p ls ss) }
    ensures filtered { (s : L → Bool) (t : R → Bool) (p : L → R → Bool) (ls : List L) (rs : List R)
        → pairs (λ l r. p l r && (s l && t r)) ls rs ≡ pairs p (filter s ls) (filter t rs) }
    ensures bags { (p : L → R → Bool) (ls ms : List L) (rs ss : List R) → SameBag ls ms → SameBag rs ss
        → SameBag (pairs p ls rs) (pairs p ms ss) }
{}

/// Joined rows are those glued of the pairs that meet, where they pass the test; more rows on a side
/// give more of them.
pub fn joined_are_pairs<X>()
    ensures glued { (joins : X → X → Bool) (test : Binding X → Bool) (ls rs : List (Binding X))
        → joined_rows joins test ls rs
        ≡ flat_map (λ p. only (test (glue p.0 p.1)) (glue p.0 p.1)) (pairs (meet joins) ls rs) }
    ensures left { (joins : X → X → Bool) (test : Binding X → Bool) (ls ms rs : List (Binding X))
        → joined_rows joins test (ls ++ ms) rs ≡ joined_rows joins test ls rs ++ joined_rows joins test ms rs }
    ensures right { (joins : X → X → Bool) (test : Binding X → Bool) (ls rs ss : List (Binding X))
        → SameBag (joined_rows joins test ls (rs ++ ss)) (joined_rows joins test ls rs ++ joined_rows joins test ls ss) }
    ensures bags { (joins : X → X → Bool) (test : Binding X → Bool) (ls ms rs ss : List (Binding X))
        → SameBag ls ms → SameBag rs ss → SameBag (joined_rows joins test ls rs) (joined_rows joins test ms ss) }
{}
