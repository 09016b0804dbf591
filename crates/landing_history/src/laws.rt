ghost use Rattle.std.specs.List.{flat_map};
ghost use Rattle.std.specs.Prelude.{◌≡◌, ◌↔◌, ◌++◌, [], Bool, IsPermutation, List, false, filter, nat_le, take, true, ℕ};
ghost use Rattle.value_core.specs.Bags.{SameBag};
ghost use Rattle.value_core.specs.FilePlaces.{IsPlaces};
ghost use Rattle.value_core.specs.Order.{Row};
ghost use Rattle.value_core.specs.declared.cursor.FilePlace.{FilePlace};
ghost use Rattle.value_core.specs.declared.cursor.Format.{Format};
ghost use Rattle.landing_core.specs.Folders.{HoldsPresent, SameFiles, are_distinct, bytes_of, listing_of, with_file};
ghost use Rattle.landing_core.specs.Fresh.{heads_of, new_lines, reach};
ghost use Rattle.landing_core.specs.Lines.{lines_from};
ghost use Rattle.landing_core.specs.Names.{AreAscending};
ghost use Rattle.landing_core.specs.Places.{AreAboveZero, place_of, placed_names};
ghost use Rattle.landing_core.specs.declared.landing.LandingFile.{LandingFile};
ghost use Rattle.landing_core.specs.declared.landing.Listed.{Listed};
ghost use Rattle.landing_history.specs.Readings.{AreLastEnds, AreListed, AreReadings, Reading, is_listed, places_after, rows_found};
ghost use Rattle.landing_history.specs.Taken.{AreEnds, CanReadOn, HaveGrown, LandedLine, line_end, taken, taken_of, with_heads};

/// A law: where no file was read, nothing was taken.
pub fn nothing_is_taken_at_first()
    ensures { (format : Format) (header : Bool) (dir : List ℕ) (ever : List LandingFile)
        → taken format header dir ever [] ≡ [] }
{}

/// A law: the complete lines of the bytes up to a place are those that end at or before it.
pub fn what_is_taken_has_ended()
    ensures { (bytes : List ℕ) (place : ℕ)
        → lines_from 0 [] (take place bytes) ≡ filter (λ line. nat_le (line_end line) place) (lines_from 0 [] bytes) }
{}

/// A law: where each place is the end of a complete line, so is each place that a reading reaches.
pub fn reach_keeps_ends()
    ensures { (dir : List ℕ) (present ever : List LandingFile) (places : List FilePlace) (listing : List Listed)
        → CanReadOn dir present ever places listing
        → AreEnds dir ever places
        → AreEnds dir ever (reach dir present places listing) }
{}

/// A law: a reading reaches the end of each listed file's last complete line within its listed size,
/// whatever end of a line it began at, and leaves the places of other files as they were.
pub fn reach_is_the_last_end()
    ensures listed { (dir : List ℕ) (present ever : List LandingFile) (places : List FilePlace) (listing : List Listed)
        → CanReadOn dir present ever places listing
        → AreEnds dir ever places
        → AreLastEnds dir ever (reach dir present places listing) listing }
    ensures others { (dir : List ℕ) (present : List LandingFile) (places : List FilePlace) (listing : List Listed) (name : List ℕ)
        → is_listed name listing ≡ false
        → place_of (reach dir present places listing) name ≡ place_of places name }
{}

/// A law: what was taken before a reading and the rows that the reading finds are, in some order,
/// what is taken up to the places that it reaches. So each row is taken once, as a streaming table
/// takes each row of its source (Databricks documentation, Streaming tables).
pub fn a_reading_adds_its_lines()
    ensures { (format : Format) (header : Bool) (dir : List ℕ) (present ever : List LandingFile) (places : List FilePlace) (listing : List Listed)
        → CanReadOn dir present ever places listing
        → AreAscending (placed_names places)
        → AreEnds dir ever places
        → let found : List LandedLine = with_heads (heads_of format header dir present listing) (new_lines format header dir present places 0 listing) in
        IsPermutation (taken format header dir ever places ++ found) (taken format header dir ever (reach dir present places listing)) }
{}

/// A law: a first reading takes the rows of each listed file whose lines end within its listed size,
/// files in the order of the listing, which is that of their names, and lines in order.
pub fn a_first_reading_takes_all()
    ensures { (format : Format) (header : Bool) (dir : List ℕ) (present ever : List LandingFile) (places : List FilePlace) (listing : List Listed)
        → CanReadOn dir present ever places listing
        → taken format header dir ever (reach dir present [] listing)
        ≡ flat_map (λ listed. taken_of format header (bytes_of dir listed.file ever) listed.size) listing }
{}

/// A law: where each file that has a place is listed, a reading reaches as far as a first one does.
/// So after an update that reads all listed files a table has taken what a full refresh takes.
pub fn reach_is_that_of_a_first_reading()
    ensures { (dir : List ℕ) (present ever : List LandingFile) (places : List FilePlace) (listing : List Listed)
        → CanReadOn dir present ever places listing
        → AreAscending (placed_names places)
        → AreEnds dir ever places
        → AreListed places listing
        → reach dir present places listing ≡ reach dir present [] listing }
{}

/// A law: where the files that are there hold all that they ever held, a folder's whole listing can
/// be read on from any ends of lines. So no file of it is shorter than its place.
pub fn a_whole_listing_can_be_read_on()
    ensures { (dir : List ℕ) (present ever : List LandingFile) (places : List FilePlace)
        → are_distinct present ≡ true
        → HoldsPresent present ever
        → AreEnds dir ever places
        → CanReadOn dir present ever places (listing_of dir present) }
{}

/// A law: files that grow, and files that appear, change nothing of what was taken.
pub fn growth_takes_nothing()
    ensures same { (format : Format) (header : Bool) (dir : List ℕ) (was now : List LandingFile) (places : List FilePlace)
        → HaveGrown was now
        → AreEnds dir was places
        → taken format header dir now places ≡ taken format header dir was places }
    ensures ends { (dir : List ℕ) (was now : List LandingFile) (places : List FilePlace)
        → HaveGrown was now
        → AreEnds dir was places
        → AreEnds dir now places }
{}

/// A law: files that are the same have grown, what grew twice has grown, and so has a file that got
/// more bytes behind those that it had, or that is new.
pub fn growth_goes_file_by_file()
    ensures same { (was now : List LandingFile) → SameFiles was now → HaveGrown was now }
    ensures twice { (first was now : List LandingFile)
        → HaveGrown first was → HaveGrown was now → HaveGrown first now }
    ensures one { (dir name more : List ℕ) (files : List LandingFile)
        → HaveGrown files (with_file dir name (bytes_of dir name files ++ more) files) }
{}

/// A law: what readings one after the other have found is, in some order, what one look from the
/// beginning of each file up to their places gives. No row is missing, and none is there twice.
pub fn readings_find_what_is_taken()
    ensures found { (format : Format) (header : Bool) (dir : List ℕ) (readings : List Reading) (now : List LandingFile)
        → AreReadings dir readings now
        → IsPermutation (rows_found format header dir readings) (taken format header dir now (places_after dir readings)) }
    ensures ends { (dir : List ℕ) (readings : List Reading) (now : List LandingFile)
        → AreReadings dir readings now
        → AreEnds dir now (places_after dir readings) }
    ensures ascending { (dir : List ℕ) (readings : List Reading)
        → AreAscending (placed_names (places_after dir readings)) }
{}

/// A law: lines in another order give one bag of rows, whatever rows each line gives.
pub fn order_of_lines_changes_no_bag()
    ensures { (rows : LandedLine → List Row) (lines others : List LandedLine)
        → IsPermutation lines others
        → SameBag (flat_map rows lines) (flat_map rows others) }
{}

/// A law: places in files are those whose names ascend and that are above 0.
pub fn places_have_one_form()
    ensures { (places : List FilePlace)
        → IsPlaces places ↔ (AreAscending (placed_names places) × AreAboveZero places) }
{}
