use sqlite_items::Items;

/// What a token is by its first byte.
#[derive(Clone, Copy, Debug, PartialEq, Eq)]
pub enum TokenKind {
    /// Letters, digits and `_`, reserved or not.
    Word,
    /// A name in backquotes.
    Quoted,
    /// A string with its quotes.
    Str,
    /// Decimal digits.
    Number,
    Symbol,
}

/// A part of a text: the bytes from `start` to before `end`.
#[derive(Clone, Copy, Debug, PartialEq, Eq)]
pub struct Token {
    pub start: u32,
    pub end: u32,
    pub kind: TokenKind,
}

/// Tokens in the order of the text.
pub type TokenList = Items<Token>;
