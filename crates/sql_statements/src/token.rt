//! Single tokens.

ghost use Rattle.std.specs.Prelude.{◌≡◌, Option};
ghost use Rattle.sql_tree.specs.Lexemes as lexemes;
ghost use Rattle.sql_phrases.specs.Tokens as tokens;
ghost use Rattle.sql_statements.specs.Parsers as parsers;
ghost use Rattle.sql_statements.specs.Parsers.{Gives};

use crate::error::ParseError;
use sql_phrases::Reader;
use sql_tree::{LexemeKind, OptionValue, SqlType};
use std::alloc::Global;
use value_core::{Name, Text};

/// What the next token was found to be, and goes behind it.
fn taken<T>(reader: &mut Reader<'_>, found: Option<T>) -> Result<T, ParseError>
    ensures { Gives (parsers.some_token found reader.old) result reader.new }
{
    let Some(value) = found else {
        return Err(ParseError::Unexpected);
    };
    reader.skip();
    Ok(value)
}

/// A symbol or a reserved word.
#[tactic(auto, unfolding(crate::specs::Parsers::token))]
pub fn expect(reader: &mut Reader<'_>, wanted: LexemeKind) -> Result<(), ParseError>
    ensures { Gives (parsers.token (tokens.the wanted) reader.old) result reader.new }
{
    let found = reader.the_at(wanted);
    taken(reader, found)
}

/// A word that is not reserved.
#[tactic(auto, unfolding(crate::specs::Parsers::token))]
pub fn expect_word(reader: &mut Reader<'_>, word: &str) -> Result<(), ParseError>
    ensures { Gives (parsers.token (tokens.the_word word.now) reader.old) result reader.new }
{
    let found = reader.the_word_at(word);
    taken(reader, found)
}

/// A word that is not reserved, or what stands in backquotes.
#[tactic(auto, unfolding(crate::specs::Parsers::token))]
pub fn name(alloc: Global, reader: &mut Reader<'_>) -> Result<Name, ParseError>
    ensures { Gives (parsers.token tokens.name_of reader.old) result reader.new }
{
    let found = reader.name_at(alloc)?;
    taken(reader, found)
}

/// The characters that a string means.
#[tactic(auto, unfolding(crate::specs::Parsers::token))]
pub fn string(alloc: Global, reader: &mut Reader<'_>) -> Result<Text, ParseError>
    ensures { Gives (parsers.token tokens.string_of reader.old) result reader.new }
{
    let found = reader.string_at(alloc)?;
    taken(reader, found)
}

/// The word of an option of `read_files`, reserved or not, as it is spelled.
#[tactic(auto, unfolding(crate::specs::Parsers::token))]
pub fn option_word(alloc: Global, reader: &mut Reader<'_>) -> Result<Name, ParseError>
    ensures { Gives (parsers.token tokens.option_word_of reader.old) result reader.new }
{
    let found = reader.option_word_at(alloc)?;
    taken(reader, found)
}

/// What an option of `read_files` is set to: a string, TRUE or FALSE.
#[tactic(auto, unfolding(crate::specs::Parsers::token))]
pub fn option_value(alloc: Global, reader: &mut Reader<'_>) -> Result<OptionValue, ParseError>
    ensures { Gives (parsers.token tokens.value_of reader.old) result reader.new }
{
    let found = reader.value_at(alloc)?;
    taken(reader, found)
}

/// 1 or 2, the type of a slowly changing dimension.
#[tactic(auto, unfolding(crate::specs::Parsers::token))]
pub fn scd_type(reader: &mut Reader<'_>) -> Result<u8, ParseError>
    ensures { Gives (parsers.token tokens.scd_of reader.old) result reader.new }
{
    let found = reader.scd_at();
    taken(reader, found)
}

/// The type of a declared column: INTEGER is INT, and LONG is BIGINT.
#[tactic(auto, unfolding(crate::specs::Parsers::token))]
pub fn column_type(reader: &mut Reader<'_>) -> Result<SqlType, ParseError>
    ensures { Gives (parsers.token lexemes.type_of reader.old) result reader.new }
{
    let found = reader.type_at();
    taken(reader, found)
}
