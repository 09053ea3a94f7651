//! The laws of matched rows, of filters and of keys, for callers' proofs.

ghost use Rattle.std.specs.Prelude.{◌≡◌, ℕ, Bool, true, List, length, map, filter, flat_map, All, Some};
ghost use Rattle.std.specs.List.{filter_map};
ghost use Rattle.answer_theory.specs.Bindings.{Binding, first_entries, has_entry, meet};
ghost use Rattle.answer_theory.specs.Rows.{over, AreDistinct};
ghost use Rattle.answer_theory.specs.Solutions.{Binds, ReadsOnly, chosen_rows, names, only};
ghost use Rattle.answer_theory.specs.Trees.{IsRowOf};
ghost use Rattle.tuple_core.specs.Encoding.{row_encoding};
ghost use Rattle.tuple_core.specs.Values.{FitsRow, RowList, RowValues};
ghost use Rattle.tuple_core.specs.declared.value.Value.{Value as AValue};
ghost use Rattle.row_match.specs.Filters.{all_hold, comparison_variables};
ghost use Rattle.row_match.specs.Patterns.{fits, matched_row, entries_of, pattern_variables, term_variables, values_join};
ghost use Rattle.row_match.specs.Shapes.{Shape, key_row};
ghost use Rattle.row_match.specs.declared.filter.Comparison.{Comparison as AComparison};
ghost use Rattle.row_match.specs.declared.pattern.Term.{Term as ATerm};
ghost use Rattle.row_match.specs.declared.shape.Side.TheVariants as side;

/// A matched row binds the first entries of the atom's variables, and has a value for each of them.
pub fn matched_rows_bind()
    ensures entries { (terms : List ATerm) (row r : RowValues) → length row ≡ length terms → matched_row terms row ≡ Some r
        → over (pattern_variables terms) r ≡ first_entries (entries_of terms row) }
    ensures width { (terms : List ATerm) (row r : RowValues) → length row ≡ length terms → matched_row terms row ≡ Some r
        → length r ≡ length (pattern_variables terms) }
    ensures row { (terms : List ATerm) (row r : RowValues) → length row ≡ length terms → matched_row terms row ≡ Some r
        → IsRowOf (pattern_variables terms) (over (pattern_variables terms) r) }
{}

/// A row of an atom binds exactly the variables of the atom's terms; the pattern has each of them once.
pub fn patterns_bind()
    ensures entries { (terms : List ATerm) (row : RowValues) → length row ≡ length terms → (v : ℕ)
        → has_entry (entries_of terms row) v ≡ names (pattern_variables terms) v }
    ensures names { (terms : List ATerm) (v : ℕ) → names (pattern_variables terms) v ≡ names (term_variables terms) v }
    ensures distinct { (terms : List ATerm) → AreDistinct (pattern_variables terms) }
{}

/// An atom's rows as a leaf of joins: they bind the pattern's variables, and what the leaf gives under a test are the
/// matched rows that pass it, in their order.
pub fn atoms_are_leaves()
    ensures binds { (terms : List ATerm) (rows : RowList) → All (λ row. length row ≡ length terms) rows
        → All (Binds (pattern_variables terms)) (flat_map (λ row. only (fits terms row) (entries_of terms row)) rows) }
    ensures gives { (test : Binding AValue → Bool) (terms : List ATerm) (rows : RowList)
        → All (λ row. length row ≡ length terms) rows
        → chosen_rows values_join test (flat_map (λ row. only (fits terms row) (entries_of terms row)) rows)
        ≡ filter test (map (over (pattern_variables terms)) (filter_map (matched_row terms) rows)) }
{}

/// A filter reads the variables of its comparisons alone.
pub fn filters_read()
    ensures { (comparisons : List AComparison) → ReadsOnly (comparison_variables comparisons) (all_hold comparisons) }
{}

/// Rows have equal keys exactly where they meet.
pub fn keys_tell()
    ensures equal { (s : Shape) (l r : RowValues) → AreDistinct s.left → AreDistinct s.right → length l ≡ length s.left → length r ≡ length s.right
        → meet values_join (over s.left l) (over s.right r) ≡ true → row_encoding (key_row side.Left s l) ≡ row_encoding (key_row side.Right s r) }
    ensures meet { (s : Shape) (l r : RowValues) → AreDistinct s.left → AreDistinct s.right → length l ≡ length s.left → length r ≡ length s.right
        → FitsRow l → FitsRow r
        → row_encoding (key_row side.Left s l) ≡ row_encoding (key_row side.Right s r) → meet values_join (over s.left l) (over s.right r) ≡ true }
{}
