//! Parts of statements that have no expressions.

ghost use Rattle.std.specs.Prelude.{◌≡◌, length};
ghost use Rattle.sql_tree.specs.declared.lexeme.LexemeKind.TheVariants as k;
ghost use Rattle.sql_phrases.specs.Tokens as tokens;
ghost use Rattle.sql_statements.specs.Parsers as parsers;
ghost use Rattle.sql_statements.specs.Parsers.{Gives};
ghost use Rattle.sql_statements.specs.Descent as spec;

use crate::error::ParseError;
use crate::token::{expect, expect_word, name, option_value, option_word, scd_type, string};
use sql_phrases::Reader;
use sql_tree::{LexemeKind, SqlAction, SqlOption, SqlOptions, SqlOrigin, SqlSequence, SqlSome};
use std::alloc::Global;
use value_core::{Name, Names};

/// `name { "," name }`
#[tactic(auto, unfolding(crate::specs::Parsers::separated, crate::specs::Descent::names))]
pub fn names(alloc: Global, reader: &mut Reader<'_>) -> Result<Names, ParseError>
    ensures { Gives (spec.names reader.old) result reader.new }
{
    let first = name(alloc, reader)?;
    let mut found = Names::new(alloc);
    found.push(first)?;
    more_names(alloc, reader, found)
}

/// Goes on with names behind commas.
fn more_names(alloc: Global, reader: &mut Reader<'_>, first: Names) -> Result<Names, ParseError>
    ensures { Gives (parsers.rest_from k.Comma (parsers.token tokens.name_of) (length reader.old) first reader.old) result reader.new }
{
    let mut found = first;
    for _turn in 0..reader.left() {
        if !reader.eat(LexemeKind::Comma) {
            return Ok(found);
        }
        found.push(name(alloc, reader)?)?;
    }
    Ok(found)
}

/// `"(" names ")"`
#[tactic(auto, unfolding(crate::specs::Descent::in_parens))]
pub fn names_in_parens(alloc: Global, reader: &mut Reader<'_>) -> Result<Names, ParseError>
    ensures { Gives (spec.in_parens spec.names reader.old) result reader.new }
{
    expect(reader, LexemeKind::LParen)?;
    let found = names(alloc, reader)?;
    expect(reader, LexemeKind::RParen)?;
    Ok(found)
}

/// `[COMMENT string]`
#[tactic(auto, unfolding(crate::specs::Descent::comment))]
pub fn comment(alloc: Global, reader: &mut Reader<'_>) -> Result<(), ParseError>
    ensures { Gives (spec.comment reader.old) result reader.new }
{
    if !reader.sees_word("COMMENT") {
        return Ok(());
    }
    expect_word(reader, "COMMENT")?;
    string(alloc, reader)?;
    Ok(())
}

/// `word "=>" (string | TRUE | FALSE)`
#[tactic(auto, unfolding(crate::specs::Descent::option))]
fn option(alloc: Global, reader: &mut Reader<'_>) -> Result<SqlOption, ParseError>
    ensures { Gives (spec.option reader.old) result reader.new }
{
    let word = option_word(alloc, reader)?;
    expect(reader, LexemeKind::Arrow)?;
    let value = option_value(alloc, reader)?;
    Ok(SqlOption { word, value })
}

/// `{ "," option }`
#[tactic(auto, unfolding(crate::specs::Descent::options))]
fn options(alloc: Global, reader: &mut Reader<'_>) -> Result<SqlOptions, ParseError>
    ensures { Gives (spec.options reader.old) result reader.new }
{
    let mut found = SqlOptions::new(alloc);
    for _turn in 0..reader.left() {
        if !reader.eat(LexemeKind::Comma) {
            return Ok(found);
        }
        found.push(option(alloc, reader)?)?;
    }
    Ok(found)
}

/// `string { "," option }`
#[tactic(auto, unfolding(crate::specs::Descent::files))]
fn files(alloc: Global, reader: &mut Reader<'_>, stream: bool) -> Result<SqlOrigin, ParseError>
    ensures { Gives (spec.files stream reader.old) result reader.new }
{
    let path = string(alloc, reader)?;
    let options = options(alloc, reader)?;
    Ok(SqlOrigin::Files {
        stream,
        path,
        options,
    })
}

#[tactic(auto, unfolding(crate::specs::Descent::in_parens))]
fn files_in_parens(
    alloc: Global,
    reader: &mut Reader<'_>,
    stream: bool,
) -> Result<SqlOrigin, ParseError>
    ensures { Gives (spec.in_parens (spec.files stream) reader.old) result reader.new }
{
    expect(reader, LexemeKind::LParen)?;
    let found = files(alloc, reader, stream)?;
    expect(reader, LexemeKind::RParen)?;
    Ok(found)
}

/// Behind the word read_files: its files where a parenthesis follows, else the table of that name.
#[tactic(auto, unfolding(crate::specs::Descent::files_or_table))]
fn files_or_table(
    alloc: Global,
    reader: &mut Reader<'_>,
    stream: bool,
    name: Name,
) -> Result<SqlOrigin, ParseError>
    ensures { Gives (spec.files_or_table stream name reader.old) result reader.new }
{
    if reader.is_at(LexemeKind::LParen) {
        return files_in_parens(alloc, reader, stream);
    }
    Ok(SqlOrigin::Table { stream, name })
}

/// `read_files "(" .. ")" | name`
#[tactic(auto, unfolding(crate::specs::Descent::source))]
fn source(alloc: Global, reader: &mut Reader<'_>, stream: bool) -> Result<SqlOrigin, ParseError>
    ensures { Gives (spec.source stream reader.old) result reader.new }
{
    let is_files = reader.sees_word("read_files");
    let name = name(alloc, reader)?;
    if is_files {
        return files_or_table(alloc, reader, stream, name);
    }
    Ok(SqlOrigin::Table { stream, name })
}

#[tactic(auto, unfolding(crate::specs::Descent::in_parens))]
fn table_in_parens(alloc: Global, reader: &mut Reader<'_>) -> Result<Name, ParseError>
    ensures { Gives (spec.in_parens (parsers.token tokens.name_of) reader.old) result reader.new }
{
    expect(reader, LexemeKind::LParen)?;
    let found = name(alloc, reader)?;
    expect(reader, LexemeKind::RParen)?;
    Ok(found)
}

/// Behind STREAM.
#[tactic(auto, unfolding(crate::specs::Descent::streamed))]
fn streamed(alloc: Global, reader: &mut Reader<'_>) -> Result<SqlOrigin, ParseError>
    ensures { Gives (spec.streamed reader.old) result reader.new }
{
    if reader.is_at(LexemeKind::LParen) {
        let name = table_in_parens(alloc, reader)?;
        return Ok(SqlOrigin::Table { stream: true, name });
    }
    source(alloc, reader, true)
}

/// `name | STREAM name | STREAM "(" name ")" | [STREAM] read_files ..`
#[tactic(auto, unfolding(crate::specs::Descent::origin_of))]
pub fn origin(alloc: Global, reader: &mut Reader<'_>) -> Result<SqlOrigin, ParseError>
    ensures { Gives (spec.origin_of reader.old) result reader.new }
{
    if reader.is_at(LexemeKind::Stream) {
        expect(reader, LexemeKind::Stream)?;
        return streamed(alloc, reader);
    }
    source(alloc, reader, false)
}

/// `"*" EXCEPT "(" names ")" | "(" names ")" | names`
#[tactic(auto, unfolding(crate::specs::Descent::some_of))]
fn some_columns(alloc: Global, reader: &mut Reader<'_>) -> Result<SqlSome, ParseError>
    ensures { Gives (spec.some_of reader.old) result reader.new }
{
    if reader.is_at(LexemeKind::Star) {
        expect(reader, LexemeKind::Star)?;
        expect(reader, LexemeKind::Except)?;
        return Ok(SqlSome::Except(names_in_parens(alloc, reader)?));
    }
    if reader.is_at(LexemeKind::LParen) {
        return Ok(SqlSome::Only(names_in_parens(alloc, reader)?));
    }
    Ok(SqlSome::Only(names(alloc, reader)?))
}

/// `name | STRUCT "(" names ")"`
#[tactic(auto, unfolding(crate::specs::Descent::sequence_of))]
pub fn sequence(alloc: Global, reader: &mut Reader<'_>) -> Result<SqlSequence, ParseError>
    ensures { Gives (spec.sequence_of reader.old) result reader.new }
{
    if reader.is_at(LexemeKind::Struct) {
        expect(reader, LexemeKind::Struct)?;
        return Ok(SqlSequence::Struct(names_in_parens(alloc, reader)?));
    }
    Ok(SqlSequence::One(name(alloc, reader)?))
}

/// `[EXCEPT "(" names ")"]`
#[tactic(auto, unfolding(crate::specs::Descent::except))]
pub fn except(alloc: Global, reader: &mut Reader<'_>) -> Result<Names, ParseError>
    ensures { Gives (spec.except reader.old) result reader.new }
{
    if reader.is_at(LexemeKind::Except) {
        expect(reader, LexemeKind::Except)?;
        return names_in_parens(alloc, reader);
    }
    Ok(Names::new(alloc))
}

fn is_name(reader: &Reader<'_>) -> bool
    ensures { result ≡ tokens.begins tokens.is_name reader.now }
{
    reader.is_at(LexemeKind::Word) || reader.is_at(LexemeKind::Quoted)
}

/// `[[AS] name]`
#[tactic(auto, unfolding(crate::specs::Descent::alias))]
pub fn alias(alloc: Global, reader: &mut Reader<'_>) -> Result<Option<Name>, ParseError>
    ensures { Gives (spec.alias reader.old) result reader.new }
{
    if reader.is_at(LexemeKind::As) {
        expect(reader, LexemeKind::As)?;
        return Ok(Some(name(alloc, reader)?));
    }
    if is_name(reader) {
        return Ok(Some(name(alloc, reader)?));
    }
    Ok(None)
}

/// `DROP ROW | FAIL UPDATE`
#[tactic(auto, unfolding(crate::specs::Descent::reaction))]
fn reaction(reader: &mut Reader<'_>) -> Result<SqlAction, ParseError>
    ensures { Gives (spec.reaction reader.old) result reader.new }
{
    if reader.sees_word("DROP") {
        expect_word(reader, "DROP")?;
        expect_word(reader, "ROW")?;
        return Ok(SqlAction::DropRow);
    }
    expect_word(reader, "FAIL")?;
    expect_word(reader, "UPDATE")?;
    Ok(SqlAction::FailUpdate)
}

/// `[ON VIOLATION (DROP ROW | FAIL UPDATE)]`
#[tactic(auto, unfolding(crate::specs::Descent::violation))]
pub fn violation(reader: &mut Reader<'_>) -> Result<SqlAction, ParseError>
    ensures { Gives (spec.violation reader.old) result reader.new }
{
    if reader.is_at(LexemeKind::On) {
        expect(reader, LexemeKind::On)?;
        expect_word(reader, "VIOLATION")?;
        return reaction(reader);
    }
    Ok(SqlAction::Warn)
}

/// `[IGNORE NULL UPDATES]`
#[tactic(auto, unfolding(crate::specs::Descent::ignoring))]
pub fn ignoring(reader: &mut Reader<'_>) -> Result<bool, ParseError>
    ensures { Gives (spec.ignoring reader.old) result reader.new }
{
    if reader.sees_word("IGNORE") {
        expect_word(reader, "IGNORE")?;
        expect(reader, LexemeKind::Null)?;
        expect_word(reader, "UPDATES")?;
        return Ok(true);
    }
    Ok(false)
}

/// `[COLUMNS some]`
#[tactic(auto, unfolding(crate::specs::Descent::columns_of, crate::specs::Descent::maybe))]
pub fn columns(alloc: Global, reader: &mut Reader<'_>) -> Result<Option<SqlSome>, ParseError>
    ensures { Gives (spec.columns_of reader.old) result reader.new }
{
    if reader.sees_word("COLUMNS") {
        expect_word(reader, "COLUMNS")?;
        return Ok(Some(some_columns(alloc, reader)?));
    }
    Ok(None)
}

/// `[STORED AS SCD TYPE (1 | 2)]`
#[tactic(auto, unfolding(crate::specs::Descent::scd, crate::specs::Descent::maybe))]
pub fn scd(reader: &mut Reader<'_>) -> Result<Option<u8>, ParseError>
    ensures { Gives (spec.scd reader.old) result reader.new }
{
    if reader.sees_word("STORED") {
        expect_word(reader, "STORED")?;
        expect(reader, LexemeKind::As)?;
        expect_word(reader, "SCD")?;
        expect_word(reader, "TYPE")?;
        return Ok(Some(scd_type(reader)?));
    }
    Ok(None)
}

/// `[TRACK HISTORY ON some]`
#[tactic(auto, unfolding(crate::specs::Descent::track, crate::specs::Descent::maybe))]
pub fn track(alloc: Global, reader: &mut Reader<'_>) -> Result<Option<SqlSome>, ParseError>
    ensures { Gives (spec.track reader.old) result reader.new }
{
    if reader.sees_word("TRACK") {
        expect_word(reader, "TRACK")?;
        expect_word(reader, "HISTORY")?;
        expect(reader, LexemeKind::On)?;
        return Ok(Some(some_columns(alloc, reader)?));
    }
    Ok(None)
}
