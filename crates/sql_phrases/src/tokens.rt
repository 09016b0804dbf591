//! What single tokens are to a statement.

ghost use Rattle.std.specs.Prelude.{◌≡◌, IfOk};
ghost use Rattle.std.specs.Str.{str_eq_ignore_ascii_case};
ghost use Rattle.sql_tree.specs.Lexemes as lexemes;
ghost use Rattle.sql_phrases.specs.Tokens as spec;

use sql_tree::{Lexeme, LexemeKind, OptionValue, SqlType, same_kind};
use std::alloc::{AllocError, Global};
use value_core::{Name, Text};

/// Whether a token is this word, in any case of letters, and not in backquotes.
pub fn is_bare(word: &str, token: &Lexeme) -> bool
    ensures { result ≡ lexemes.is_bare word.now token.now }
{
    same_kind(token.kind, LexemeKind::Word) && token.text.as_str().eq_ignore_ascii_case(word)
}

fn is_word(word: &str, name: &str) -> bool
    ensures { result ≡ str_eq_ignore_ascii_case word.now name.now }
{
    word.eq_ignore_ascii_case(name)
}

fn type_named(word: &str) -> Option<SqlType>
    ensures { result ≡ lexemes.type_named word.now }
{
    if is_word(word, "BOOLEAN") {
        Some(SqlType::Bool)
    } else if is_word(word, "INT") || is_word(word, "INTEGER") {
        Some(SqlType::Int)
    } else if is_word(word, "BIGINT") || is_word(word, "LONG") {
        Some(SqlType::Big)
    } else if is_word(word, "STRING") {
        Some(SqlType::Str)
    } else {
        None
    }
}

/// The type that a word names, in any case of letters: BOOLEAN, INT or INTEGER, BIGINT or LONG, STRING.
pub fn type_of(token: &Lexeme) -> Option<SqlType>
    ensures { result ≡ lexemes.type_of token.now }
{
    if same_kind(token.kind, LexemeKind::Word) {
        type_named(token.text.as_str())
    } else {
        None
    }
}

/// Whether a token is of the wanted kind. `None` where it is another.
pub fn the(token: &Lexeme, wanted: LexemeKind) -> Option<()>
    ensures { result ≡ spec.the wanted token.now }
{
    if same_kind(token.kind, wanted) {
        Some(())
    } else {
        None
    }
}

/// Whether a token is this word, in any case of letters. `None` where it is another.
pub fn the_word(token: &Lexeme, word: &str) -> Option<()>
    ensures { result ≡ spec.the_word word.now token.now }
{
    if is_bare(word, token) { Some(()) } else { None }
}

fn is_name(token: &Lexeme) -> bool
    ensures { result ≡ spec.is_name token.now }
{
    same_kind(token.kind, LexemeKind::Word) || same_kind(token.kind, LexemeKind::Quoted)
}

/// The name that a token is: a word that is not reserved, or a name in backquotes. `None` where it is none.
pub fn name_of(alloc: Global, token: &Lexeme) -> Result<Option<Name>, AllocError>
    ensures { IfOk result (λ name. name ≡ spec.name_of token.now) }
{
    if !is_name(token) {
        return Ok(None);
    }
    Ok(Some(Name::new(alloc, token.text.as_str())?))
}

/// The characters of a string. `None` where the token is no string.
pub fn string_of(alloc: Global, token: &Lexeme) -> Result<Option<Text>, AllocError>
    ensures { IfOk result (λ text. text ≡ spec.string_of token.now) }
{
    if !same_kind(token.kind, LexemeKind::Str) {
        return Ok(None);
    }
    Ok(Some(token.text.copy(alloc)?))
}

fn is_any_word(kind: LexemeKind) -> bool
    ensures { result ≡ spec.is_worded kind }
{
    match kind {
        LexemeKind::End
        | LexemeKind::Quoted
        | LexemeKind::Str
        | LexemeKind::Number
        | LexemeKind::LParen
        | LexemeKind::RParen
        | LexemeKind::Comma
        | LexemeKind::Semicolon
        | LexemeKind::Star
        | LexemeKind::Plus
        | LexemeKind::Minus
        | LexemeKind::Percent
        | LexemeKind::Eq
        | LexemeKind::Ne
        | LexemeKind::Lt
        | LexemeKind::Le
        | LexemeKind::Gt
        | LexemeKind::Ge
        | LexemeKind::Concat
        | LexemeKind::Arrow => false,
        _ => true,
    }
}

/// The word of an option, reserved or not, as it is spelled. `None` where the token is no word.
pub fn option_word_of(alloc: Global, token: &Lexeme) -> Result<Option<Name>, AllocError>
    ensures { IfOk result (λ name. name ≡ spec.option_word_of token.now) }
{
    if !is_any_word(token.kind) {
        return Ok(None);
    }
    Ok(Some(Name::new(alloc, token.text.as_str())?))
}

/// What an option is set to: a string, TRUE or FALSE. `None` where the token is something else.
pub fn value_of(alloc: Global, token: &Lexeme) -> Result<Option<OptionValue>, AllocError>
    ensures { IfOk result (λ value. value ≡ spec.value_of token.now) }
{
    if same_kind(token.kind, LexemeKind::Str) {
        return Ok(Some(OptionValue::Str(token.text.copy(alloc)?)));
    }
    if same_kind(token.kind, LexemeKind::True) {
        return Ok(Some(OptionValue::Bool(true)));
    }
    if same_kind(token.kind, LexemeKind::False) {
        return Ok(Some(OptionValue::Bool(false)));
    }
    Ok(None)
}

/// The type of a slowly changing dimension, 1 or 2. `None` where the token is something else.
pub fn scd_of(token: &Lexeme) -> Option<u8>
    ensures { result ≡ spec.scd_of token.now }
{
    if same_kind(token.kind, LexemeKind::Number) && (token.value == 1 || token.value == 2) {
        Some(token.value as u8)
    } else {
        None
    }
}
