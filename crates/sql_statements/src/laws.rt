//! Laws of the grammar and its print.

ghost use Rattle.std.specs.Prelude.{◌≡◌, List};
ghost use Rattle.sql_tree.specs.declared.lexeme.Lexeme.{Lexeme};
ghost use Rattle.sql_tree.specs.declared.statement.Statement.{Statement};
ghost use Rattle.sql_tree.specs.Print.{print};
ghost use Rattle.sql_statements.specs.declared.error.Refusal.{Refusal};
ghost use Rattle.sql_statements.specs.Limits.{AreTokens};
ghost use Rattle.sql_statements.specs.Pipelines.{IsPipeline, IsShortPipeline, IsRefused};

/// Tokens have one list of statements; the print of a list that the grammar gives reads as it; and so no two of them
/// print alike. None of this has the limit of expressions.
pub fn print_is_read()
    ensures one { (tokens : List Lexeme) (p q : List Statement) → IsPipeline tokens p → IsPipeline tokens q → p ≡ q }
    ensures read { (tokens : List Lexeme) (p : List Statement) → IsPipeline tokens p → IsPipeline (print p) p }
    ensures apart { (v w : List Lexeme) (p q : List Statement) → IsPipeline v p → IsPipeline w q → print p ≡ print q → p ≡ q }
{}

/// Tokens are read in one way within the limit or refused for one reason, and what is read within the limit is read
/// without it.
pub fn answers_are_one()
    ensures short { (tokens : List Lexeme) (p : List Statement) → IsShortPipeline tokens p → IsPipeline tokens p }
    ensures refused { (tokens : List Lexeme) (r s : Refusal) → AreTokens tokens → IsRefused tokens r → IsRefused tokens s → r ≡ s }
    ensures apart { (tokens : List Lexeme) (p : List Statement) (r : Refusal) → AreTokens tokens → IsShortPipeline tokens p
        → IsRefused tokens r → ⊥ }
{}
