//! The laws of a collector's steps, and of what an atom gives, for callers' proofs.

ghost use Rattle.std.specs.Prelude.{◌≡◌, [], ◌++◌, List, length, map, flat_map};
ghost use Rattle.std.specs.List.{AllByRecursion};
ghost use Rattle.answer_theory.specs.Rows.{over};
ghost use Rattle.answer_theory.specs.Solutions.{chosen_rows, only};
ghost use Rattle.row_match.specs.Filters.{all_hold};
ghost use Rattle.row_match.specs.Patterns.{entries_of, fits, pattern_variables, values_join};
ghost use Rattle.tuple_core.specs.Values.{RowList, RowValues};
ghost use Rattle.collect_core.specs.Selecting.{Select, selected_row, selected_rows};
ghost use Rattle.collect_core.specs.Steps.{CollectorStep, given_rows};

/// Steps follow one another, and none is a step too.
pub fn collectors_step()
    ensures none { (select : Select) (s : List RowList) → CollectorStep select s s [] }
    ensures then { (select : Select) (s t u : List RowList) (gave more : RowList) → CollectorStep select s t gave → CollectorStep select t u more
        → CollectorStep select s u (gave ++ more) }
{}

/// What a collector gives is what the atom selects of all rows that were accepted, in the order of its members; and that
/// is what the atom gives to joins as a leaf under its comparisons.
pub fn collectors_are_leaves()
    ensures together { (select : Select) (accepted : List RowList) → given_rows select accepted ≡ selected_rows select (flat_map (λ rows. rows) accepted) }
    ensures leaf { (select : Select) (rows : RowList) → AllByRecursion (λ row. length row ≡ length select.terms) rows
        → map (over (pattern_variables select.terms)) (selected_rows select rows)
        ≡ chosen_rows values_join (all_hold select.comparisons) (flat_map (λ row. only (fits select.terms row) (entries_of select.terms row)) rows) }
    ensures width { (select : Select) (rows : RowList) → AllByRecursion (λ row. length row ≡ length select.terms) rows
        → AllByRecursion (λ values. length values ≡ length (pattern_variables select.terms)) (selected_rows select rows) }
{}
