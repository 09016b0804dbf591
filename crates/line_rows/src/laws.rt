ghost use Rattle.std.specs.Prelude.{ℕ, List, ◌<◌, IsUtf8};
ghost use Rattle.csv.specs.Records.{AllText};
ghost use Rattle.line_rows.specs.Csv.{fields_read};

/// Under a separator that is an ASCII character each field of a text is a text: so no field is refused for being none.
pub fn fields_of_a_text_are_texts()
    ensures { (sep : ℕ) (line : List ℕ) → sep < 128 → IsUtf8 line → AllText (fields_read sep line) }
{}
