ghost use Rattle.std.specs.Prelude.{◌≡◌, ◌≤◌, length, take, drop, IfOk};
ghost use Rattle.sql_tree.specs.Lexemes as lexemes;
ghost use Rattle.sql_phrases.specs.Parsers as spec;
ghost use Rattle.sql_phrases.specs.Tokens as tokens;

use crate::error::ReadError;
use crate::tokens::{
    is_bare, name_of, option_word_of, scd_of, string_of, the, the_word, type_of, value_of,
};
use sql_tree::{Lexeme, LexemeKind, OptionValue, SqlType, same_kind};
use std::alloc::{AllocError, Global};
use std::marker::Model;
use value_core::{Name, Text};

/// A place in a list of tokens, which contracts see as the tokens that are left.
#[derive(Drop)]
pub struct Reader<'a> {
    rest: &'a [Lexeme],
}

impl<'a> Model for Reader<'a> {
    ghost use Rattle.std.specs.Prelude.{List};
    ghost use Rattle.sql_tree.specs.declared.lexeme.Lexeme.{Lexeme};

    ghost Value = { List Lexeme };

    ghost use Rattle.sql_phrases.specs.Cursor.{tokens_left};

    ghost view = { tokens_left };
}

impl<'a> Reader<'a> {
    /// At the first of these tokens.
    pub fn new(tokens: &'a [Lexeme]) -> Reader<'a>
        ensures { result ≡ tokens.now }
    {
        Reader { rest: tokens }
    }

    /// The kind of the next token, `End` where there is none.
    pub fn peek(&self) -> LexemeKind
        ensures { result ≡ lexemes.kind self.now }
    {
        match self.rest {
            [] => LexemeKind::End,
            [token, ..] => token.kind,
        }
    }

    /// How many tokens are left.
    pub fn left(&self) -> usize
        ensures { result ≡ length self.now }
    {
        self.rest.len()
    }

    /// A reader of the next tokens alone, of which there are so many.
    pub fn window(&self, count: usize) -> Reader<'a>
        requires { count ≤ length self.now }
        ensures { result ≡ take count self.now }
    {
        Reader {
            rest: &self.rest[..count],
        }
    }

    /// Goes behind so many tokens.
    pub fn advance(&mut self, count: usize)
        requires { count ≤ length self.old }
        ensures { self.new ≡ drop count self.old }
    {
        self.rest = &self.rest[count..];
    }

    /// Goes behind the next token.
    pub fn skip(&mut self)
        ensures { self.new ≡ spec.next self.old }
    {
        if let [_, rest @ ..] = self.rest {
            self.rest = rest;
        }
    }

    /// The value of the next token, 0 where there is none.
    pub fn value(&self) -> u64
        ensures { result ≡ spec.value self.now }
    {
        match self.rest {
            [] => 0,
            [token, ..] => token.value,
        }
    }

    /// The text of the next token, empty where there is none.
    pub fn text(&self, alloc: Global) -> Result<Text, AllocError>
        ensures { IfOk result (λ text. text ≡ spec.text self.now) }
    {
        match self.rest {
            [] => Text::new(alloc, ""),
            [token, ..] => token.text.copy(alloc),
        }
    }

    /// The text of the next token as a name.
    pub fn name(&self, alloc: Global) -> Result<Name, AllocError>
        ensures { IfOk result (λ name. name ≡ spec.text self.now) }
    {
        match self.rest {
            [] => Name::new(alloc, ""),
            [token, ..] => Name::new(alloc, token.text.as_str()),
        }
    }

    /// Whether the next token is this word, in any case of letters, and is not reserved.
    pub fn sees_word(&self, word: &str) -> bool
        ensures { result ≡ spec.sees_word word.now self.now }
    {
        match self.rest {
            [] => false,
            [token, ..] => is_bare(word, token),
        }
    }

    /// Whether the token behind the next one has this kind.
    pub fn sees_second(&self, wanted: LexemeKind) -> bool
        ensures { result ≡ spec.sees wanted (spec.next self.now) }
    {
        match self.rest {
            [] => begins(&[], wanted),
            [_, rest @ ..] => begins(rest, wanted),
        }
    }

    /// The type that the next token names.
    pub fn type_at(&self) -> Option<SqlType>
        ensures { result ≡ spec.type_at self.now }
    {
        match self.rest {
            [] => None,
            [token, ..] => type_of(token),
        }
    }

    /// Whether there is a next token, of this kind.
    pub fn is_at(&self, wanted: LexemeKind) -> bool
        ensures { result ≡ tokens.begins (tokens.is wanted) self.now }
    {
        match self.rest {
            [] => false,
            [token, ..] => same_kind(token.kind, wanted),
        }
    }

    /// Something where the next token has this kind.
    pub fn the_at(&self, wanted: LexemeKind) -> Option<()>
        ensures { result ≡ tokens.of_next (tokens.the wanted) self.now }
    {
        match self.rest {
            [] => None,
            [token, ..] => the(token, wanted),
        }
    }

    /// Something where the next token is this word and not reserved.
    pub fn the_word_at(&self, word: &str) -> Option<()>
        ensures { result ≡ tokens.of_next (tokens.the_word word.now) self.now }
    {
        match self.rest {
            [] => None,
            [token, ..] => the_word(token, word),
        }
    }

    /// The name that the next token is, bare or in backquotes.
    pub fn name_at(&self, alloc: Global) -> Result<Option<Name>, AllocError>
        ensures { IfOk result (λ name. name ≡ tokens.of_next tokens.name_of self.now) }
    {
        match self.rest {
            [] => Ok(None),
            [token, ..] => name_of(alloc, token),
        }
    }

    /// The string that the next token is.
    pub fn string_at(&self, alloc: Global) -> Result<Option<Text>, AllocError>
        ensures { IfOk result (λ text. text ≡ tokens.of_next tokens.string_of self.now) }
    {
        match self.rest {
            [] => Ok(None),
            [token, ..] => string_of(alloc, token),
        }
    }

    /// The word of an option that the next token is, reserved or not.
    pub fn option_word_at(&self, alloc: Global) -> Result<Option<Name>, AllocError>
        ensures { IfOk result (λ name. name ≡ tokens.of_next tokens.option_word_of self.now) }
    {
        match self.rest {
            [] => Ok(None),
            [token, ..] => option_word_of(alloc, token),
        }
    }

    /// The value of an option that the next token is: a string, TRUE or FALSE.
    pub fn value_at(&self, alloc: Global) -> Result<Option<OptionValue>, AllocError>
        ensures { IfOk result (λ value. value ≡ tokens.of_next tokens.value_of self.now) }
    {
        match self.rest {
            [] => Ok(None),
            [token, ..] => value_of(alloc, token),
        }
    }

    /// The SCD type that the next token is, 1 or 2.
    pub fn scd_at(&self) -> Option<u8>
        ensures { result ≡ tokens.of_next tokens.scd_of self.now }
    {
        match self.rest {
            [] => None,
            [token, ..] => scd_of(token),
        }
    }

    /// Whether the next token has this kind.
    pub fn sees(&self, wanted: LexemeKind) -> bool
        ensures { result ≡ spec.sees wanted self.now }
    {
        same_kind(self.peek(), wanted)
    }

    /// Goes behind the next token if it has this kind, and says whether.
    pub fn eat(&mut self, wanted: LexemeKind) -> bool
        ensures { spec.eat wanted self.old ≡ Ok (result, self.new) }
    {
        let found = self.sees(wanted);
        if found {
            self.skip();
        }
        found
    }

    /// Goes behind the next token, which must have this kind.
    #[tactic(auto, unfolding(crate::specs::Parsers::expect))]
    pub fn expect(&mut self, wanted: LexemeKind) -> Result<(), ReadError>
        ensures { spec.Gives (spec.expect wanted self.old) result self.new }
    {
        if self.sees(wanted) {
            self.skip();
            Ok(())
        } else {
            Err(ReadError::Unexpected)
        }
    }

    /// Reads a type.
    #[tactic(auto, unfolding(crate::specs::Parsers::type_name))]
    pub fn type_name(&mut self) -> Result<SqlType, ReadError>
        ensures { spec.Gives (spec.type_name self.old) result self.new }
    {
        let Some(found) = self.type_at() else {
            return Err(ReadError::Unexpected);
        };
        self.skip();
        Ok(found)
    }
}

fn begins(tokens: &[Lexeme], wanted: LexemeKind) -> bool
    ensures { result ≡ spec.sees wanted tokens.now }
{
    match tokens {
        [] => same_kind(LexemeKind::End, wanted),
        [token, ..] => same_kind(token.kind, wanted),
    }
}
