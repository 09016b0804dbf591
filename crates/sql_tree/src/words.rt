//! Words and what kind they are to the grammar.

ghost use Rattle.std.specs.Prelude.{◌≡◌};
ghost use Rattle.std.specs.Str.{str_eq_ignore_ascii_case};
ghost use Rattle.sql_tree.specs.Lexemes as spec;
ghost use Rattle.sql_tree.specs.Spelling as spelling;

use crate::lexeme::LexemeKind;

const RESERVED: [LexemeKind; 29] = [
    LexemeKind::And,
    LexemeKind::As,
    LexemeKind::Between,
    LexemeKind::By,
    LexemeKind::Case,
    LexemeKind::Cast,
    LexemeKind::Constraint,
    LexemeKind::Create,
    LexemeKind::Div,
    LexemeKind::Else,
    LexemeKind::EndWord,
    LexemeKind::Except,
    LexemeKind::False,
    LexemeKind::From,
    LexemeKind::Group,
    LexemeKind::In,
    LexemeKind::Is,
    LexemeKind::Not,
    LexemeKind::Null,
    LexemeKind::On,
    LexemeKind::Or,
    LexemeKind::Select,
    LexemeKind::Stream,
    LexemeKind::Struct,
    LexemeKind::Then,
    LexemeKind::True,
    LexemeKind::TryCast,
    LexemeKind::When,
    LexemeKind::Where,
];

/// A reserved word in upper case, and nothing for any other kind.
pub fn keyword(kind: LexemeKind) -> &'static str
    ensures { result.now ≡ spec.keyword kind }
{
    match kind {
        LexemeKind::And => "AND",
        LexemeKind::As => "AS",
        LexemeKind::Between => "BETWEEN",
        LexemeKind::By => "BY",
        LexemeKind::Case => "CASE",
        LexemeKind::Cast => "CAST",
        LexemeKind::Constraint => "CONSTRAINT",
        LexemeKind::Create => "CREATE",
        LexemeKind::Div => "DIV",
        LexemeKind::Else => "ELSE",
        LexemeKind::EndWord => "END",
        LexemeKind::Except => "EXCEPT",
        LexemeKind::False => "FALSE",
        LexemeKind::From => "FROM",
        LexemeKind::Group => "GROUP",
        LexemeKind::In => "IN",
        LexemeKind::Is => "IS",
        LexemeKind::Not => "NOT",
        LexemeKind::Null => "NULL",
        LexemeKind::On => "ON",
        LexemeKind::Or => "OR",
        LexemeKind::Select => "SELECT",
        LexemeKind::Stream => "STREAM",
        LexemeKind::Struct => "STRUCT",
        LexemeKind::Then => "THEN",
        LexemeKind::True => "TRUE",
        LexemeKind::TryCast => "TRY_CAST",
        LexemeKind::When => "WHEN",
        LexemeKind::Where => "WHERE",
        _ => "",
    }
}

fn spells(word: &[u8], kind: LexemeKind) -> bool
    ensures { result ≡ str_eq_ignore_ascii_case word.now (spec.keyword kind) }
{
    word.eq_ignore_ascii_case(keyword(kind).as_bytes())
}

fn kind_among(mut kinds: &[LexemeKind], word: &[u8]) -> LexemeKind
    ensures { result ≡ spec.kind_among kinds.entry.now word.now }
{
    while let [kind, rest @ ..] = kinds {
        if spells(word, *kind) {
            return *kind;
        }
        kinds = rest;
    }
    LexemeKind::Word
}

/// The reserved word that a word is in any case of letters, or else `Word` (Databricks SQL language reference, reserved
/// words; here those that the grammar of pipelines needs).
#[tactic(auto, unfolding(crate::specs::Lexemes::word_kind))]
pub fn word_kind(word: &[u8]) -> LexemeKind
    ensures { result ≡ spec.word_kind word.now }
{
    kind_among(&RESERVED, word)
}

/// A symbol, and nothing for any other kind. `=` stands for `==` too, and `<>` for `!=`.
pub fn symbol(kind: LexemeKind) -> &'static str
    ensures { result.now ≡ spelling.symbol kind }
{
    match kind {
        LexemeKind::LParen => "(",
        LexemeKind::RParen => ")",
        LexemeKind::Comma => ",",
        LexemeKind::Semicolon => ";",
        LexemeKind::Star => "*",
        LexemeKind::Plus => "+",
        LexemeKind::Minus => "-",
        LexemeKind::Percent => "%",
        LexemeKind::Eq => "=",
        LexemeKind::Ne => "<>",
        LexemeKind::Lt => "<",
        LexemeKind::Le => "<=",
        LexemeKind::Gt => ">",
        LexemeKind::Ge => ">=",
        LexemeKind::Concat => "||",
        LexemeKind::Arrow => "=>",
        _ => "",
    }
}
