//! The laws of encodings and of limits, for callers' proofs.

ghost use Rattle.std.specs.Prelude.{◌≡◌, ◌≤◌, ◌++◌, ℕ, Some, length, take};
ghost use Rattle.med_prelude.specs.Texts.{Bytes};
ghost use Rattle.tuple_core.specs.Decoding.{AreBytes, row_at};
ghost use Rattle.tuple_core.specs.Encoding.{greatest_weight, row_encoding, row_weight};
ghost use Rattle.tuple_core.specs.Values.{FitsRow, RowValues, longest_text, most_values};

use crate::row::Row;
use crate::value::Value;

/// Two rows with one encoding are equal, and no row's encoding is a proper prefix of another's.
pub fn encodings_tell_rows_apart()
    ensures { (r s : RowValues) (x y : Bytes) → FitsRow r → FitsRow s → row_encoding r ++ x ≡ row_encoding s ++ y → (r ≡ s) × (x ≡ y) }
{}

/// A row's encoding is read back, whatever follows it.
pub fn encodings_are_read_back()
    ensures { (row : RowValues) (rest : Bytes) → FitsRow row → row_at (row_encoding row ++ rest) ≡ Some (row, row_weight row) }
{}

/// What is read is a row within its limits, and it is read from its encoding alone.
pub fn rows_are_read_from_encodings()
    ensures fits { (bytes : Bytes) (row : RowValues) (count : ℕ) → AreBytes bytes → row_at bytes ≡ Some (row, count) → FitsRow row }
    ensures encoding { (bytes : Bytes) (row : RowValues) (count : ℕ) → AreBytes bytes → row_at bytes ≡ Some (row, count) → take count bytes ≡ row_encoding row }
{}

/// The weight is the length of the encoding.
pub fn weight_is_a_length()
    ensures { (row : RowValues) → row_weight row ≡ length (row_encoding row) }
{}

/// No row weighs more than the greatest weight.
pub fn weight_is_bounded()
    ensures { (row : RowValues) → FitsRow row → row_weight row ≤ greatest_weight }
{}

/// The constants are the limits on which the definitions rest.
pub fn constants_are_the_limits()
    ensures values { Row.MOST_VALUES ≡ most_values }
    ensures text { Value.LONGEST_TEXT ≡ longest_text }
    ensures weight { Row.GREATEST_WEIGHT ≡ greatest_weight }
{}
