//! Bags: lists in which each item counts as often as it stands there, and where it stands doesn't count.

ghost use Rattle.std.specs.Prelude.{◌≡◌, ℕ, ◌<◌, Bool, true, List, [], ◌∷◌, ◌++◌, map, filter, flat_map, length, IsPermutation, Contains, All};
ghost use Rattle.std.specs.List.{list_all, list_any};
ghost use Rattle.std.specs.List.Sorted.{IsStrictlySortedBy};
ghost use Rattle.std.specs.Cmp.{IsTotalOrder};
ghost use Rattle.std.specs.declared.cmp.Ordering.{Ordering};
ghost use Rattle.answer_theory.specs.Bags.{SameBag, count_of, numbers_from};

/// When two lists are one bag.
pub fn bags_alike<X>()
    ensures refl { (xs : List X) → SameBag xs xs }
    ensures sym { (xs ys : List X) → SameBag xs ys → SameBag ys xs }
    ensures trans { (xs ys zs : List X) → SameBag xs ys → SameBag ys zs → SameBag xs zs }
    ensures permutation { (xs ys : List X) → IsPermutation xs ys → SameBag xs ys }
    ensures length { (xs ys : List X) → SameBag xs ys → length xs ≡ length ys }
{}

/// Bags side by side, in either order, and with one item more or less.
pub fn bags_grow<X>()
    ensures append { (xs ys us vs : List X) → SameBag xs ys → SameBag us vs → SameBag (xs ++ us)
        (ys ++ vs) }
    ensures append_comm { (xs ys : List X) → SameBag (xs ++ ys) (ys ++ xs) }
    ensures push { (xs : List X) (x : X) → SameBag (xs ++ x ∷ []) (x ∷ xs) }
    ensures middle { (xs ys : List X) (x : X) → SameBag (xs ++ x ∷ ys) (x ∷ (xs ++ ys)) }
    ensures cons { (xs ys : List X) (x : X) → SameBag xs ys → SameBag (x ∷ xs) (x ∷ ys) }
    ensures uncons { (xs ys : List X) (x : X) → SameBag (x ∷ xs) (x ∷ ys) → SameBag xs ys }
{}

/// What is made of each item of a bag.
pub fn bags_made<X, Y, Z>()
    ensures map { (h : X → Y) (xs ys : List X) → SameBag xs ys → SameBag (map h xs) (map h ys) }
    ensures filter { (test : X → Bool) (xs ys : List X) → SameBag xs ys
        → SameBag (filter test xs) (filter test ys) }
    ensures flat_map { (h : X → List Y) (xs ys : List X) → SameBag xs ys
        → SameBag (flat_map h xs) (flat_map h ys) }
    ensures flat_map_alike { (h k : X → List Y) → ((x : X) → SameBag (h x) (k x)) → (xs : List X)
        → SameBag (flat_map h xs) (flat_map k xs) }
    ensures exchange { (h : X → Y → List Z) (xs : List X) (ys : List Y)
        → SameBag (flat_map (λ x. flat_map (λ y. h x y) ys) xs)
        (flat_map (λ y. flat_map (λ x. h x y) xs) ys) }
{}

/// What a bag tells of its items.
///
/// Whether an item stands in it needs a test that tells equal items.
pub fn bags_tell<X>()
    ensures any { (test : X → Bool) (xs ys : List X) → SameBag xs ys → list_any test xs ≡ list_any test ys }
    ensures all { (test : X → Bool) (xs ys : List X) → SameBag xs ys → list_all test xs ≡ list_all test ys }
    ensures contains { (same : X → X → Bool) → ((x y : X) → same x y ≡ true → x ≡ y)
        → ((x : X) → same x x ≡ true) → (xs ys : List X) → SameBag xs ys → (x : X) → Contains xs x
        → Contains ys x }
{}

/// Bags of numbers: they are told apart by how often each number stands there.
pub fn bags_of_numbers()
    ensures counted { (ms ns : List ℕ) → ((n : ℕ) → count_of n ns ≡ count_of n ms) → SameBag ns ms }
    ensures each_once { (count : ℕ) (ns : List ℕ) → All (λ n. n < count) ns
        → ((n : ℕ) → n < count → count_of n ns ≡ 1) → SameBag ns (numbers_from 0 count) }
{}

/// Items in a strict order: two lists that have the same items are one list.
pub fn one_sorted_list<K>()
    ensures { (cmp : K → K → Ordering) → IsTotalOrder cmp → (xs ys : List K) → IsStrictlySortedBy cmp xs
        → IsStrictlySortedBy cmp ys → ((x : K) → Contains xs x → Contains ys x)
        → ((x : K) → Contains ys x → Contains xs x) → xs ≡ ys }
{}
