//! Queries, and the declared columns and expectations of a dataset.

ghost use Rattle.std.specs.Prelude.{◌≡◌, length};
ghost use Rattle.sql_tree.specs.declared.lexeme.LexemeKind.TheVariants as k;
ghost use Rattle.sql_statements.specs.Parsers as parsers;
ghost use Rattle.sql_statements.specs.Parsers.{Gives};
ghost use Rattle.sql_statements.specs.Limits.{limited};
ghost use Rattle.sql_statements.specs.Descent as spec;

use crate::error::ParseError;
use crate::outermost::outermost;
use crate::part::{alias, comment, except, origin, violation};
use crate::token::{column_type, expect, expect_word, name};
use sql_phrases::Reader;
use sql_tree::{LexemeKind, Out, Outs, Select, SqlExpr, SqlExprs, SqlItem, SqlItems};
use std::alloc::Global;

#[tactic(auto, unfolding(crate::specs::Descent::in_parens))]
fn test_in_parens(alloc: Global, reader: &mut Reader<'_>) -> Result<SqlExpr, ParseError>
    ensures { Gives (spec.in_parens limited reader.old) result reader.new }
{
    expect(reader, LexemeKind::LParen)?;
    let found = outermost(alloc, reader)?;
    expect(reader, LexemeKind::RParen)?;
    Ok(found)
}

/// `CONSTRAINT name EXPECT "(" expr ")" [ON VIOLATION ..]`
#[tactic(auto, unfolding(crate::specs::Descent::expectation))]
fn expectation(alloc: Global, reader: &mut Reader<'_>) -> Result<SqlItem, ParseError>
    ensures { Gives (spec.expectation limited reader.old) result reader.new }
{
    expect(reader, LexemeKind::Constraint)?;
    let name = name(alloc, reader)?;
    expect_word(reader, "EXPECT")?;
    let test = test_in_parens(alloc, reader)?;
    let action = violation(reader)?;
    Ok(SqlItem::Expect { name, test, action })
}

/// `name type [COMMENT string]`
#[tactic(auto, unfolding(crate::specs::Descent::column))]
fn column(alloc: Global, reader: &mut Reader<'_>) -> Result<SqlItem, ParseError>
    ensures { Gives (spec.column limited reader.old) result reader.new }
{
    let name = name(alloc, reader)?;
    let kind = column_type(reader)?;
    comment(alloc, reader)?;
    Ok(SqlItem::Column { name, kind })
}

#[tactic(auto, unfolding(crate::specs::Descent::item_of))]
fn item(alloc: Global, reader: &mut Reader<'_>) -> Result<SqlItem, ParseError>
    ensures { Gives (spec.item_of limited reader.old) result reader.new }
{
    if reader.is_at(LexemeKind::Constraint) {
        return expectation(alloc, reader);
    }
    column(alloc, reader)
}

/// `item { "," item }`
#[tactic(auto, unfolding(crate::specs::Parsers::separated, crate::specs::Descent::item_list))]
fn item_list(alloc: Global, reader: &mut Reader<'_>) -> Result<SqlItems, ParseError>
    ensures { Gives (spec.item_list limited reader.old) result reader.new }
{
    let first = item(alloc, reader)?;
    let mut found = SqlItems::new(alloc);
    found.push(first)?;
    more_items(alloc, reader, found)
}

/// Goes on with items behind commas.
fn more_items(
    alloc: Global,
    reader: &mut Reader<'_>,
    first: SqlItems,
) -> Result<SqlItems, ParseError>
    ensures { Gives (parsers.rest_from k.Comma (spec.item_of limited) (length reader.old) first reader.old) result reader.new }
{
    let mut found = first;
    for _turn in 0..reader.left() {
        if !reader.eat(LexemeKind::Comma) {
            return Ok(found);
        }
        found.push(item(alloc, reader)?)?;
    }
    Ok(found)
}

#[tactic(auto, unfolding(crate::specs::Descent::in_parens))]
fn items_in_parens(alloc: Global, reader: &mut Reader<'_>) -> Result<SqlItems, ParseError>
    ensures { Gives (spec.in_parens (spec.item_list limited) reader.old) result reader.new }
{
    expect(reader, LexemeKind::LParen)?;
    let found = item_list(alloc, reader)?;
    expect(reader, LexemeKind::RParen)?;
    Ok(found)
}

/// `[ "(" item { "," item } ")" ]`
#[tactic(auto, unfolding(crate::specs::Descent::items))]
pub fn items(alloc: Global, reader: &mut Reader<'_>) -> Result<SqlItems, ParseError>
    ensures { Gives (spec.items limited reader.old) result reader.new }
{
    if reader.is_at(LexemeKind::LParen) {
        return items_in_parens(alloc, reader);
    }
    Ok(SqlItems::new(alloc))
}

/// `"*" [EXCEPT "(" names ")"] | expr [[AS] name]`
#[tactic(auto, unfolding(crate::specs::Descent::out_of))]
fn out(alloc: Global, reader: &mut Reader<'_>) -> Result<Out, ParseError>
    ensures { Gives (spec.out_of limited reader.old) result reader.new }
{
    if reader.is_at(LexemeKind::Star) {
        expect(reader, LexemeKind::Star)?;
        let except = except(alloc, reader)?;
        return Ok(Out::Star { except });
    }
    let expr = outermost(alloc, reader)?;
    let name = alias(alloc, reader)?;
    Ok(Out::One { expr, name })
}

/// `out { "," out }`
#[tactic(auto, unfolding(crate::specs::Parsers::separated, crate::specs::Descent::outs))]
fn outs(alloc: Global, reader: &mut Reader<'_>) -> Result<Outs, ParseError>
    ensures { Gives (spec.outs limited reader.old) result reader.new }
{
    let first = out(alloc, reader)?;
    let mut found = Outs::new(alloc);
    found.push(first)?;
    more_outs(alloc, reader, found)
}

/// Goes on with items behind commas.
fn more_outs(alloc: Global, reader: &mut Reader<'_>, first: Outs) -> Result<Outs, ParseError>
    ensures { Gives (parsers.rest_from k.Comma (spec.out_of limited) (length reader.old) first reader.old) result reader.new }
{
    let mut found = first;
    for _turn in 0..reader.left() {
        if !reader.eat(LexemeKind::Comma) {
            return Ok(found);
        }
        found.push(out(alloc, reader)?)?;
    }
    Ok(found)
}

/// `expr { "," expr }`
#[tactic(auto, unfolding(crate::specs::Parsers::separated, crate::specs::Descent::exprs))]
fn exprs(alloc: Global, reader: &mut Reader<'_>) -> Result<SqlExprs, ParseError>
    ensures { Gives (spec.exprs limited reader.old) result reader.new }
{
    let first = outermost(alloc, reader)?;
    let mut found = SqlExprs::new(alloc);
    found.push(first)?;
    more_exprs(alloc, reader, found)
}

/// Goes on with items behind commas.
fn more_exprs(
    alloc: Global,
    reader: &mut Reader<'_>,
    first: SqlExprs,
) -> Result<SqlExprs, ParseError>
    ensures { Gives (parsers.rest_from k.Comma limited (length reader.old) first reader.old) result reader.new }
{
    let mut found = first;
    for _turn in 0..reader.left() {
        if !reader.eat(LexemeKind::Comma) {
            return Ok(found);
        }
        found.push(outermost(alloc, reader)?)?;
    }
    Ok(found)
}

/// `[GROUP BY expr { "," expr }]`
#[tactic(auto, unfolding(crate::specs::Descent::groups))]
fn groups(alloc: Global, reader: &mut Reader<'_>) -> Result<SqlExprs, ParseError>
    ensures { Gives (spec.groups limited reader.old) result reader.new }
{
    if reader.is_at(LexemeKind::Group) {
        expect(reader, LexemeKind::Group)?;
        expect(reader, LexemeKind::By)?;
        return exprs(alloc, reader);
    }
    Ok(SqlExprs::new(alloc))
}

/// `[WHERE expr]`
#[tactic(auto, unfolding(crate::specs::Descent::filter_of, crate::specs::Descent::maybe))]
fn filter(alloc: Global, reader: &mut Reader<'_>) -> Result<Option<SqlExpr>, ParseError>
    ensures { Gives (spec.filter_of limited reader.old) result reader.new }
{
    if reader.is_at(LexemeKind::Where) {
        expect(reader, LexemeKind::Where)?;
        return Ok(Some(outermost(alloc, reader)?));
    }
    Ok(None)
}

/// `SELECT out { "," out } FROM origin [WHERE expr] [GROUP BY ..]`
#[tactic(auto, unfolding(crate::specs::Descent::select))]
pub fn select(alloc: Global, reader: &mut Reader<'_>) -> Result<Select, ParseError>
    ensures { Gives (spec.select limited reader.old) result reader.new }
{
    expect(reader, LexemeKind::Select)?;
    let outs = outs(alloc, reader)?;
    expect(reader, LexemeKind::From)?;
    let origin = origin(alloc, reader)?;
    let filter = filter(alloc, reader)?;
    let groups = groups(alloc, reader)?;
    Ok(Select {
        outs,
        origin,
        filter,
        groups,
    })
}
