//! The laws of a join's steps and of what it gives, for callers' proofs.

ghost use Rattle.std.specs.Prelude.{◌≡◌, true, [], ◌∷◌, ◌++◌, ◌≤◌, length, map};
ghost use Rattle.answer_theory.specs.Bags.{SameBag};
ghost use Rattle.answer_theory.specs.Rows.{AreDistinct, glued_variables, over};
ghost use Rattle.answer_theory.specs.Solutions.{joined_rows as joined_bindings};
ghost use Rattle.bucket_store.specs.Held.{Held};
ghost use Rattle.join_core.specs.Given.{given_rows, glued, joined_rows, pairs_given};
ghost use Rattle.join_core.specs.State.{AreRowsOver, Joining};
ghost use Rattle.join_core.specs.Steps.{GivesPair, JoinStep};
ghost use Rattle.row_match.specs.Patterns.{most_variables, values_join};
ghost use Rattle.row_match.specs.Shapes.{Shape};
ghost use Rattle.tuple_core.specs.Values.{RowList, RowValues};

/// Steps follow one another; none is a step too; and a pair that is given is one pair more, and its glue one row more.
pub fn joins_step()
    ensures none { (s : Joining) → JoinStep s s [] [] [] }
    ensures then { (s t u : Joining) (l r gave l_more r_more gave_more : RowList) → JoinStep s t l r gave → JoinStep t u l_more r_more gave_more
        → JoinStep s u (l ++ l_more) (r ++ r_more) (gave ++ gave_more) }
    ensures pairs { (s t : Joining) (row : RowValues) (l r : Held) → GivesPair s t row l r → SameBag (pairs_given t) ((l, r) ∷ pairs_given s) }
    ensures given { (s t : Joining) (row : RowValues) (l r : Held) → GivesPair s t row l r → SameBag (given_rows t) (row ∷ given_rows s) }
{}

/// What a join gives are the joined rows of the theory of answers, over the variables of both sides, in the same order;
/// and each of them has a value for each of these variables.
pub fn joins_are_joined()
    ensures bindings { (s : Shape) (ls rs : RowList) → AreDistinct s.left → AreDistinct s.right
        → AreRowsOver s.left ls → AreRowsOver s.right rs
        → map (over (glued_variables s.left s.right)) (joined_rows s ls rs)
        ≡ joined_bindings values_join (λ _. true) (map (over s.left) ls) (map (over s.right) rs) }
    ensures wide { (s : Shape) (l r : RowValues) → length l ≡ length s.left → length r ≡ length s.right
        → length (glued s l r) ≡ length (glued_variables s.left s.right) }
    ensures fits { (s : Shape) (ls rs : RowList) → length (glued_variables s.left s.right) ≤ most_variables
        → AreRowsOver s.left ls → AreRowsOver s.right rs
        → AreRowsOver (glued_variables s.left s.right) (joined_rows s ls rs) }
{}
