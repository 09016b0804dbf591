ghost use Rattle.std.specs.Prelude.{◌≡◌, List, [], true, Ok, map, IsUtf8};
ghost use Rattle.sql_tokens.specs.declared.token.Token as token;
ghost use Rattle.sql_tokens.specs.declared.lexical.Context.TheVariants as context;
ghost use Rattle.sql_tokens.specs.Scanning.{Scans};
ghost use Rattle.sql_tree.specs.declared.lexeme.Lexeme.{Lexeme};
ghost use Rattle.sql_tree.specs.Spelling.{spelled};
ghost use Rattle.sql_lexemes.specs.Lexing.{lexeme_of};
ghost use Rattle.sql_lexemes.specs.Spellable.{are_spellable};

/// Lexemes that a text can have are the lexemes of the tokens of their own text, which is UTF-8.
pub fn lexemes_read_back()
    ensures read { (ts : List Lexeme) → are_spellable ts ≡ true
        → (found : List token.Token) × Scans context.Open 0 (spelled ts) [] (Ok found) × (map (lexeme_of (spelled ts)) found ≡ ts) }
    ensures utf8 { (ts : List Lexeme) → are_spellable ts ≡ true → IsUtf8 (spelled ts) }
{}
