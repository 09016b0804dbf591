//! The tokens as the grammar sees them.

ghost use Rattle.std.specs.Prelude.{◌≡◌, true};
ghost use Rattle.sql_tree.specs.Lexemes as spec;

use value_core::Text;

/// What a token is to the grammar. Each reserved word is a kind of its own, every other word is a `Word`.
#[derive(Clone, Copy, Debug, PartialEq, Eq)]
pub enum LexemeKind {
    /// There is no token any more.
    End,
    /// A word that is not reserved.
    Word,
    /// A name in backquotes.
    Quoted,
    Str,
    Number,
    LParen,
    RParen,
    Comma,
    Semicolon,
    Star,
    Plus,
    Minus,
    Percent,
    /// `=` or `==`.
    Eq,
    /// `<>` or `!=`.
    Ne,
    Lt,
    Le,
    Gt,
    Ge,
    /// `||`.
    Concat,
    /// `=>`.
    Arrow,
    And,
    As,
    Between,
    By,
    Case,
    Cast,
    Constraint,
    Create,
    Div,
    Else,
    /// The word END.
    EndWord,
    Except,
    False,
    From,
    Group,
    In,
    Is,
    Not,
    Null,
    On,
    Or,
    Select,
    Stream,
    Struct,
    Then,
    True,
    TryCast,
    When,
    Where,
}

/// A token as the grammar reads it.
#[derive(Debug, Drop)]
pub struct Lexeme {
    pub kind: LexemeKind,
    /// The letters of a word as they stand, reserved or not; the characters of a name between its backquotes; the
    /// characters that a string means. Empty for a number and a symbol.
    pub text: Text,
    /// The value of a number, 0 for all else.
    pub value: u64,
}

/// Whether two kinds are one.
pub fn same_kind(a: LexemeKind, b: LexemeKind) -> bool
    ensures value { result ≡ spec.same_kind a b }
    ensures same { result ≡ true → a ≡ b }
{
    a == b
}
