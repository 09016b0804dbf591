ghost use Rattle.std.specs.Prelude.{◌≡◌, ◌++◌, List, ℕ};
ghost use Rattle.value_core.specs.Order.{Row};
ghost use Rattle.segment_rows.specs.Ranges.{AreRows};
ghost use Rattle.segment_rows.specs.Spelling.{spelled_rows};

use crate::field::Field;

/// A law: no spelling of a field begins another one's, so what stands in bytes can be told in one way.
pub fn fields_have_one_spelling<T: Field>()
    ensures { (a b : T) (x y : List ℕ) → T.in_range a → T.in_range b → T.spelled a ++ x ≡ T.spelled b ++ y → (a ≡ b) × (x ≡ y) }
{}

/// A law: rows of one spelling are the same rows.
pub fn rows_have_one_spelling()
    ensures { (a b : List Row) → AreRows a → AreRows b → spelled_rows a ≡ spelled_rows b → a ≡ b }
{}
