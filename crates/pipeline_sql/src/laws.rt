//! Laws of the readings of texts and of their print.

ghost use Rattle.std.specs.Prelude.{◌≡◌, List, true};
ghost use Rattle.std.specs.List.{list_all};
ghost use Rattle.sql_tree.specs.declared.lexeme.Lexeme.{Lexeme};
ghost use Rattle.sql_tree.specs.declared.statement.Statement.{Statement};
ghost use Rattle.sql_tokens.specs.declared.error.SqlRefusal.{SqlRefusal};
ghost use Rattle.sql_lexemes.specs.Spellable.{is_spellable};
ghost use Rattle.sql_statements.specs.Pipelines.{IsPipeline};
ghost use Rattle.pipeline_sql.specs.Read.{Text, IsRead, IsRefused, print_text, IsWithinLimits};

/// A text is read in one way, or refused for one reason.
pub fn a_text_has_one_answer()
    ensures read { (text : Text) (p q : List Statement) → IsRead text p → IsRead text q → p ≡ q }
    ensures refused { (text : Text) (r s : SqlRefusal) → IsRefused text r → IsRefused text s → r ≡ s }
    ensures apart { (text : Text) (p : List Statement) (r : SqlRefusal) → IsRead text p → IsRefused text r → ⊥ }
{}

/// What the grammar gives of tokens that a text can have, however many they are, is the one reading of its canonical
/// print, where that is within the limits of a text.
pub fn print_reads_back()
    ensures { (tokens : List Lexeme) (p : List Statement) → list_all is_spellable tokens ≡ true → IsPipeline tokens p
        → IsWithinLimits (print_text p) → IsRead (print_text p) p }
{}

/// No two lists of statements that the grammar gives have one canonical print, also beyond the limits.
pub fn equal_prints_have_equal_statements()
    ensures { (v w : List Lexeme) (p q : List Statement) → list_all is_spellable v ≡ true → list_all is_spellable w ≡ true
        → IsPipeline v p → IsPipeline w q → print_text p ≡ print_text q → p ≡ q }
{}

/// What is read of a text is the one reading of its canonical print, where that is within the limits of a text; and texts
/// of which different statements are read have different prints, whatever their length.
pub fn a_reading_has_one_print()
    ensures back { (text : Text) (p : List Statement) → IsRead text p → IsWithinLimits (print_text p) → IsRead (print_text p) p }
    ensures apart { (text other : Text) (p q : List Statement) → IsRead text p → IsRead other q → print_text p ≡ print_text q → p ≡ q }
{}
