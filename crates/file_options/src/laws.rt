ghost use Rattle.std.specs.Prelude.{◌≡◌, IsTrue, List, ℕ, Ok};
ghost use Rattle.sql_tree.specs.declared.statement.SqlOption.{SqlOption};
ghost use Rattle.file_options.specs.declared.files.FilesRead.{FilesRead};
ghost use Rattle.file_options.specs.Rules.{By, EndsInText, FilesBy};

use sql_tokens::scan_is_one;

/// A law: the rules give one answer by a path and options.
pub fn options_have_one_answer()
    ensures { (path : List ℕ) (options : List SqlOption) (one other : By FilesRead)
        → FilesBy path options one → FilesBy path options other → one ≡ other }
{
    scan_is_one();
}

/// A law: the columns that the rules give end in a STRING column where something is rescued.
pub fn rescued_columns_are_texts()
    ensures { (path : List ℕ) (options : List SqlOption) (files : FilesRead)
        → FilesBy path options (Ok files) → IsTrue files.shape.rescued → EndsInText files.shape.columns }
{}
