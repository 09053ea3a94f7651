//! The laws of answers, for callers' proofs.

ghost use Rattle.std.specs.Prelude.{◌≡◌, ℕ, Bool, List, length, map, filter, All};
ghost use Rattle.std.specs.List.{filter_map};
ghost use Rattle.answer_theory.specs.Bags.{SameBag};
ghost use Rattle.answer_theory.specs.Bindings.{Binding};
ghost use Rattle.answer_theory.specs.Rows.{over};
ghost use Rattle.answer_theory.specs.Solutions.{Binds, chosen_rows, valuations};
ghost use Rattle.query_core.specs.Answers.{answer, binding_at, choices, head_row, heads, leaf_of, solutions_of};
ghost use Rattle.query_core.specs.declared.query.Atom.{Atom as AnAtom};
ghost use Rattle.row_match.specs.Patterns.{matched_row, pattern_variables, values_join};
ghost use Rattle.row_match.specs.declared.filter.Comparison.{Comparison as AComparison};
ghost use Rattle.tuple_core.specs.Distinct.{AreSortedDistinct};
ghost use Rattle.tuple_core.specs.Values.{RowList};
ghost use Rattle.tuple_core.specs.declared.value.Value.{Value as AValue};

/// The answer is strictly sorted and has the same rows as the heads of the choices; and only one list is so.
pub fn one_answer()
    ensures is { (head : List ℕ) (atoms : List AnAtom) (comparisons : List AComparison) (arrivals : List RowList)
        → AreSortedDistinct (heads head atoms comparisons arrivals) (answer head atoms comparisons arrivals) }
    ensures only { (head : List ℕ) (atoms : List AnAtom) (comparisons : List AComparison) (arrivals : List RowList)
        (rows : RowList)
        → AreSortedDistinct (heads head atoms comparisons arrivals) rows → rows ≡ answer head atoms comparisons arrivals }
{}

/// What the choices bind, in their order, are the solutions over the atoms' leaves; and the heads are those of the
/// solutions.
pub fn heads_of_solutions()
    ensures bindings { (atoms : List AnAtom) (comparisons : List AComparison) (arrivals : List RowList)
        → map (binding_at atoms arrivals) (choices atoms comparisons arrivals) ≡ solutions_of atoms comparisons arrivals }
    ensures heads { (head : List ℕ) (atoms : List AnAtom) (comparisons : List AComparison) (arrivals : List RowList)
        → heads head atoms comparisons arrivals ≡ map (head_row head) (solutions_of atoms comparisons arrivals) }
{}

/// Rows that give each variable the same values as the solutions, each as often, have the same heads, each as often;
/// and the heads in order, each once, are the answer.
pub fn same_values_answer()
    ensures heads { (head : List ℕ) (atoms : List AnAtom) (comparisons : List AComparison) (arrivals : List RowList)
        (found : List (Binding AValue))
        → SameBag (valuations found) (valuations (solutions_of atoms comparisons arrivals))
        → SameBag (map (head_row head) found) (heads head atoms comparisons arrivals) }
    ensures answer { (head : List ℕ) (atoms : List AnAtom) (comparisons : List AComparison) (arrivals : List RowList)
        (found rows : RowList)
        → SameBag found (heads head atoms comparisons arrivals) → AreSortedDistinct found rows
        → rows ≡ answer head atoms comparisons arrivals }
{}

/// An atom as a leaf of joins: its rows bind the variables of its terms, and under a test it gives the matched rows that
/// pass it, in their order.
pub fn atoms_give_leaves()
    ensures binds { (atom : AnAtom) (rows : RowList) → All (λ row. length row ≡ length atom.terms) rows
        → All (Binds (pattern_variables atom.terms)) (leaf_of atom rows) }
    ensures gives { (test : Binding AValue → Bool) (atom : AnAtom) (rows : RowList)
        → All (λ row. length row ≡ length atom.terms) rows
        → chosen_rows values_join test (leaf_of atom rows)
        ≡ filter test (map (over (pattern_variables atom.terms)) (filter_map (matched_row atom.terms) rows)) }
{}
