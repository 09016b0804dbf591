// Laws of the rows between two lists of places.
ghost use Rattle.std.specs.Prelude.{◌≡◌, ◌<◌, ◌≤◌, ◌++◌, Bool, List, ℕ};
ghost use Rattle.value_core.specs.declared.cursor.FilePlace.{FilePlace};
ghost use Rattle.value_core.specs.declared.cursor.Format.{Format};
ghost use Rattle.landing_core.specs.Fresh.{heads_of, new_lines, reach};
ghost use Rattle.landing_core.specs.Names.{AreAscending};
ghost use Rattle.landing_core.specs.Places.{NoneFalls, placed_names};
ghost use Rattle.landing_core.specs.declared.landing.LandingFile.{LandingFile};
ghost use Rattle.landing_core.specs.declared.landing.Listed.{Listed};
ghost use Rattle.landing_history.specs.Taken.{AreEnds, CanReadOn, HaveGrown, IsLineEnd, taken_of, with_heads};
ghost use Rattle.rows_between.specs.Between.{between_of, rows_between};

/// A law: the rows that a reading finds are, in their order, those between the places where it began
/// and those to which it came, whatever was listed besides. So two readings from the same places to
/// the same places find one list.
pub fn a_reading_finds_the_rows_between()
    ensures { (format : Format) (header : Bool) (dir : List ℕ) (present ever : List LandingFile) (places : List FilePlace) (listing : List Listed)
        → CanReadOn dir present ever places listing
        → AreAscending (placed_names places)
        → AreEnds dir ever places
        → with_heads (heads_of format header dir present listing) (new_lines format header dir present places 0 listing)
        ≡ rows_between format header dir ever places (reach dir present places listing) }
{}

/// A law: the rows of a file up to a place are those up to an earlier one, at the end of a line, and
/// those between the two.
pub fn rows_between_come_behind()
    ensures { (format : Format) (header : Bool) (bytes : List ℕ) (from to : ℕ)
        → (0 < from → IsLineEnd bytes from)
        → from ≤ to
        → taken_of format header bytes to ≡ taken_of format header bytes from ++ between_of format header bytes from to }
{}

/// A law: files that grow, and files that appear, change nothing of the rows between places that don't fall.
pub fn growth_keeps_the_rows_between()
    ensures { (format : Format) (header : Bool) (dir : List ℕ) (was now : List LandingFile) (old new : List FilePlace)
        → HaveGrown was now
        → AreEnds dir was old
        → AreEnds dir was new
        → AreAscending (placed_names new)
        → NoneFalls old new
        → rows_between format header dir now old new ≡ rows_between format header dir was old new }
{}
