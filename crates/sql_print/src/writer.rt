//! A text of lexemes that grows at its end: one space between two of them, and none between the minus of a negative
//! literal and its digits.

ghost use Rattle.std.specs.Prelude.{◌≡◌, [], ◌∷◌, ◌++◌, if◌then◌else◌, ◌||◌, ◌==◌, OnOk, string_bytes, encode_utf8};
ghost use Rattle.std.specs.Char.{is_ascii_alphanumeric};
ghost use Rattle.std.specs.List.{list_all};
ghost use Rattle.sql_tree.specs.Print as print;
ghost use Rattle.sql_tree.specs.Spelling.{escaped, ends_operand, is_word, is_bare_name, gap};
ghost use Rattle.sql_print.specs.Writing.{nothing, put, puts, extended, begun, IsPlain};

use sql_tree::{LexemeKind, keyword, same_kind, symbol, word_kind};
use std::alloc::{AllocError, Global};
use std::marker::Model;
use value_core::{Name, Text};

/// A text that grows by lexemes, with the kinds of the last two: they say whether a space belongs before the next.
#[derive(Drop)]
pub struct Writer {
    text: String,
    second: LexemeKind,
    first: LexemeKind,
}

impl Model for Writer {
    ghost use Rattle.sql_print.specs.Writing.{Written, written};

    ghost Value = { Written };

    ghost view = { written };
}

impl Writer {
    /// A writer of the empty text. Takes no memory yet.
    pub fn new(alloc: Global) -> Writer
        ensures { result ≡ nothing }
    {
        Writer {
            text: String::new(alloc),
            second: LexemeKind::End,
            first: LexemeKind::End,
        }
    }

    /// The text that was written.
    pub fn into_text(self) -> Text
        ensures { result ≡ self.text }
    {
        let Writer { text, .. } = self;
        Text::from_string(text)
    }

    /// Puts a piece of text behind the others.
    fn push(&mut self, more: &str) -> Result<(), AllocError>
        ensures { OnOk result (self.new ≡ extended self.old more.now) }
    {
        self.text.push_str(more)
    }

    /// Puts the space that belongs before a lexeme of this kind.
    fn begin(&mut self, kind: LexemeKind) -> Result<(), AllocError>
        ensures { OnOk result (self.new ≡ begun self.old kind) }
    {
        self.text.push_str(gap(self.second, self.first, kind))?;
        self.second = self.first;
        self.first = kind;
        Ok(())
    }

    /// A symbol or a reserved word.
    /// A symbol or a reserved word.
    #[tactic(auto, unfolding(crate::specs::Writing::put))]
    pub fn token(&mut self, kind: LexemeKind) -> Result<(), AllocError>
        requires { IsPlain kind }
        ensures { OnOk result (self.new ≡ put self.old (print.token kind)) }
    {
        self.begin(kind)?;
        self.push(symbol(kind))?;
        self.push(keyword(kind))
    }

    /// A symbol or a reserved word where it is wanted.
    pub fn token_if(&mut self, wanted: bool, kind: LexemeKind) -> Result<(), AllocError>
        requires { IsPlain kind }
        ensures { OnOk result (self.new ≡ puts self.old (if wanted then print.token kind ∷ [] else [])) }
    {
        if wanted { self.token(kind) } else { Ok(()) }
    }

    /// A word that is not reserved, as it stands.
    /// A word that isn't reserved, as it stands.
    #[tactic(auto, unfolding(crate::specs::Writing::put))]
    pub fn word(&mut self, word: &str) -> Result<(), AllocError>
        ensures { OnOk result (self.new ≡ put self.old (print.word word.now)) }
    {
        self.begin(LexemeKind::Word)?;
        self.push(word)
    }

    /// A name in backquotes.
    #[tactic(auto, unfolding(crate::specs::Writing::put))]
    fn quoted(&mut self, name: &str) -> Result<(), AllocError>
        ensures { OnOk result (self.new ≡ put self.old (record { kind = LexemeKind.Quoted; text = name.now; value = 0 })) }
    {
        self.begin(LexemeKind::Quoted)?;
        self.push("`")?;
        self.push(name)?;
        self.push("`")
    }

    /// A name: bare where it is a word that isn't reserved, else in backquotes.
    pub fn name(&mut self, name: &Name) -> Result<(), AllocError>
        ensures { OnOk result (self.new ≡ put self.old (print.name name.now)) }
    {
        if is_bare_name(name.as_str()) {
            self.word(name.as_str())
        } else {
            self.quoted(name.as_str())
        }
    }

    /// The word of an option, reserved or not.
    /// The word of an option, as it stands, reserved or not.
    #[tactic(auto, using(crate::proofs::WordLemmas::word_kind_spelling), unfolding(crate::specs::Writing::put))]
    pub fn option_word(&mut self, word: &Name) -> Result<(), AllocError>
        ensures { OnOk result (self.new ≡ put self.old (print.option_word word.now)) }
    {
        let kind = word_kind(word.as_str().as_bytes());
        self.begin(kind)?;
        self.push(word.as_str())
    }

    /// A string in single quotes, with `\'` and `\\` for `'` and `\`.
    #[tactic(auto, unfolding(crate::specs::Writing::put))]
    pub fn string(&mut self, text: &Text) -> Result<(), AllocError>
        ensures { OnOk result (self.new ≡ put self.old (print.string text.now)) }
    {
        self.begin(LexemeKind::Str)?;
        self.push("'")?;
        push_escaped(&mut self.text, text.as_str())?;
        self.push("'")
    }

    /// A number in decimal digits.
    #[tactic(auto, unfolding(crate::specs::Writing::put))]
    pub fn number(&mut self, alloc: Global, value: u64) -> Result<(), AllocError>
        ensures { OnOk result (self.new ≡ put self.old (print.numeral value)) }
    {
        self.begin(LexemeKind::Number)?;
        let digits = value.to_string(alloc)?;
        self.push(digits.as_str())
    }
}

/// What stands before a lexeme of the third kind, behind two of the first two kinds.
fn gap(second: LexemeKind, first: LexemeKind, next: LexemeKind) -> &'static str
    ensures { result.now ≡ gap second first next }
{
    let begins = same_kind(first, LexemeKind::End);
    let is_sign = same_kind(first, LexemeKind::Minus) && !ends_operand(second);
    if begins || (is_sign && same_kind(next, LexemeKind::Number)) {
        ""
    } else {
        " "
    }
}

/// Whether a lexeme of this kind ends an operand, so that a `-` behind it subtracts.
fn ends_operand(kind: LexemeKind) -> bool
    ensures { result ≡ ends_operand kind }
{
    match kind {
        LexemeKind::Word
        | LexemeKind::Quoted
        | LexemeKind::Str
        | LexemeKind::Number
        | LexemeKind::RParen
        | LexemeKind::EndWord
        | LexemeKind::False
        | LexemeKind::Null
        | LexemeKind::True => true,
        _ => false,
    }
}

/// Whether all bytes may stand in a word.
fn are_word_bytes(mut bytes: &[u8]) -> bool
    ensures { result ≡ list_all (λ c. is_ascii_alphanumeric c || c == 95) bytes.entry.now }
{
    while let [b, rest @ ..] = bytes {
        if !(b.is_ascii_alphanumeric() || *b == b'_') {
            return false;
        }
        bytes = rest;
    }
    true
}

/// Whether the bytes are a word: a letter or `_`, then letters, digits and `_`.
fn is_word_of(bytes: &[u8]) -> bool
    ensures { result ≡ is_word bytes.now }
{
    match bytes {
        [] => false,
        [first, rest @ ..] => {
            let begins = first.is_ascii_alphabetic() || *first == b'_';
            let goes_on = are_word_bytes(rest);
            begins && goes_on
        }
    }
}

/// Whether a text is a word.
fn is_word(text: &str) -> bool
    ensures { result ≡ is_word text.now }
{
    is_word_of(text.as_bytes())
}

/// Whether a name needs no backquotes.
fn is_bare_name(text: &str) -> bool
    ensures { result ≡ is_bare_name text.now }
{
    is_word(text) && same_kind(word_kind(text.as_bytes()), LexemeKind::Word)
}

/// Whether a character stands behind a backslash in a string.
fn needs_backslash(c: char) -> bool
    ensures { result ≡ (c == 39 || c == 92) }
{
    c == '\'' || c == '\\'
}

/// Puts a character of a string, escaped where it has to be.
#[tactic(auto, using(crate::proofs::EscapeLemmas::escaped_marked, crate::proofs::EscapeLemmas::escaped_plain))]
fn push_char(text: &mut String, c: char) -> Result<(), AllocError>
    ensures { OnOk result (string_bytes text.new ≡ string_bytes text.old ++ escaped (encode_utf8 c)) }
{
    if needs_backslash(c) {
        text.push('\\')?;
        text.push(c)
    } else {
        text.push(c)
    }
}

/// A string's characters, with a backslash before each quote and each backslash.
/// Puts the characters of a string, escaped where they have to be.
#[tactic(auto, using(crate::proofs::EscapeLemmas::escaped_more))]
fn push_escaped(text: &mut String, more: &str) -> Result<(), AllocError>
    ensures { OnOk result (string_bytes text.new ≡ string_bytes text.old ++ escaped more.now) }
{
    for c in more.chars() {
        push_char(text, c)?;
    }
    Ok(())
}
