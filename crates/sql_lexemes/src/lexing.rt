//! The lexeme that a token is.

ghost use Rattle.std.specs.Prelude.{◌≡◌, ◌≤◌, true, false, length, map, IfOk, IsUtf8, bytes_eq};
ghost use Rattle.std.specs.List.{list_all};
ghost use Rattle.sql_tokens.specs.Slices.{IsTokenOf, IsSliced};
ghost use Rattle.sql_lexemes.specs.Lexing as spec;
ghost use Rattle.sql_lexemes.specs.Readable.{IsReadable};
ghost use Rattle.sql_lexemes.specs.Spellable.{is_spellable};

use sql_tokens::{Token, TokenKind, capped_value};
use sql_tree::{Lexeme, LexemeKind, symbol, word_kind};
use sqlite_items::Items;
use std::alloc::{AllocError, Global};
use value_core::Text;

/// Lexemes in the order of the text.
pub type Lexemes = Items<Lexeme>;

const SYMBOLS: [LexemeKind; 16] = [
    LexemeKind::LParen,
    LexemeKind::RParen,
    LexemeKind::Comma,
    LexemeKind::Semicolon,
    LexemeKind::Star,
    LexemeKind::Plus,
    LexemeKind::Minus,
    LexemeKind::Percent,
    LexemeKind::Eq,
    LexemeKind::Ne,
    LexemeKind::Lt,
    LexemeKind::Le,
    LexemeKind::Gt,
    LexemeKind::Ge,
    LexemeKind::Concat,
    LexemeKind::Arrow,
];

fn is_text(bytes: &[u8], text: &str) -> bool
    ensures { result ≡ bytes_eq bytes.now text.now }
{
    bytes == text.as_bytes()
}

fn symbol_among(mut kinds: &[LexemeKind], bytes: &[u8]) -> LexemeKind
    ensures { result ≡ spec.symbol_among kinds.entry.now bytes.now }
{
    while let [kind, rest @ ..] = kinds {
        if is_text(bytes, symbol(*kind)) {
            return *kind;
        }
        kinds = rest;
    }
    LexemeKind::End
}

#[tactic(auto, unfolding(crate::specs::Lexing::symbol_kind))]
fn symbol_kind(bytes: &[u8]) -> LexemeKind
    ensures { result ≡ spec.symbol_kind bytes.now }
{
    if is_text(bytes, "==") {
        LexemeKind::Eq
    } else if is_text(bytes, "!=") {
        LexemeKind::Ne
    } else {
        symbol_among(&SYMBOLS, bytes)
    }
}

fn meaning(b: u8) -> u8
    ensures { result ≡ spec.meaning b }
{
    match b {
        b'n' => b'\n',
        b't' => b'\t',
        b'r' => b'\r',
        _ => b,
    }
}

/// The bytes that a string's inside means.
fn unescaped(alloc: Global, mut bytes: &[u8]) -> Result<Vec<u8>, AllocError>
    ensures { IfOk result (λ v. v.items ≡ spec.unescaped false bytes.entry.now) }
{
    let mut meant = Vec::new(alloc);
    let mut is_escaped = false;
    while let [b, rest @ ..] = bytes {
        if is_escaped {
            meant.push(meaning(*b))?;
            is_escaped = false;
        } else if *b == b'\\' {
            is_escaped = true;
        } else {
            meant.push(*b)?;
        }
        bytes = rest;
    }
    Ok(meant)
}

fn text_of(alloc: Global, bytes: &[u8]) -> Result<Text, AllocError>
    requires { IsUtf8 bytes.now }
    ensures { IfOk result (λ text. text ≡ bytes.now) }
{
    match std::str::from_utf8(bytes) {
        Ok(text) => Text::new(alloc, text),
        // Not reached, since the bytes are UTF-8.
        Err(_) => Text::new(alloc, ""),
    }
}

fn inside(bytes: &[u8]) -> &[u8]
    ensures { result.now ≡ spec.inside bytes.now }
{
    if bytes.len() < 2 {
        return &[];
    }
    &bytes[1..bytes.len() - 1]
}

fn string_text(alloc: Global, bytes: &[u8]) -> Result<Text, AllocError>
    requires { IsUtf8 (spec.inside bytes.now) }
    ensures { IfOk result (λ text. text ≡ spec.unescaped false (spec.inside bytes.now)) }
{
    let meant = unescaped(alloc, inside(bytes))?;
    text_of(alloc, meant.as_slice())
}

fn lexeme(alloc: Global, kind: TokenKind, bytes: &[u8]) -> Result<Lexeme, AllocError>
    requires { IsReadable kind bytes.now }
    ensures { IfOk result (λ l. l ≡ spec.lexeme kind bytes.now) }
{
    let (kind, text, value) = match kind {
        TokenKind::Word => (word_kind(bytes), text_of(alloc, bytes)?, 0),
        TokenKind::Quoted => (LexemeKind::Quoted, text_of(alloc, inside(bytes))?, 0),
        TokenKind::Str => (LexemeKind::Str, string_text(alloc, bytes)?, 0),
        TokenKind::Number => (
            LexemeKind::Number,
            Text::new(alloc, "")?,
            capped_value(bytes),
        ),
        TokenKind::Symbol => (symbol_kind(bytes), Text::new(alloc, "")?, 0),
    };
    Ok(Lexeme { kind, text, value })
}

fn lexeme_of(alloc: Global, text: &[u8], token: &Token) -> Result<Lexeme, AllocError>
    requires utf8 { IsUtf8 text.now }
    requires within { token.now.end ≤ length text.now }
    requires slice { IsTokenOf text.now token.now }
    ensures { IfOk result (λ l. l ≡ spec.lexeme_of text.now token.now) }
{
    lexeme(
        alloc,
        token.kind,
        &text[token.start as usize..token.end as usize],
    )
}

/// The lexemes of the tokens of a UTF-8 text: the kind of each, reserved words in any case of letters, the characters
/// of names without backquotes, the characters that strings mean, and the values of numbers.
pub fn lexemes(alloc: Global, text: &[u8], mut tokens: &[Token]) -> Result<Lexemes, AllocError>
    requires utf8 { IsUtf8 text.now }
    requires sliced { IsSliced text.now 0 (length text.now) tokens.now }
    ensures value { IfOk result (λ l. l ≡ map (spec.lexeme_of text.now) tokens.entry.now) }
    // Each could stand in a text of lexemes.
    ensures spellable { IfOk result (λ l. list_all is_spellable l ≡ true) }
{
    let mut found = Lexemes::new(alloc);
    while let [token, rest @ ..] = tokens {
        let lexeme = lexeme_of(alloc, text, token)?;
        found.push(lexeme)?;
        tokens = rest;
    }
    Ok(found)
}
