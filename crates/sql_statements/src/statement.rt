//! Change feeds and statements.

ghost use Rattle.std.specs.Prelude.{◌≡◌};
ghost use Rattle.sql_statements.specs.Parsers.{Gives};
ghost use Rattle.sql_statements.specs.Limits.{limited};
ghost use Rattle.sql_statements.specs.Descent as spec;

use crate::error::ParseError;
use crate::outermost::outermost;
use crate::part::{columns, comment, ignoring, names_in_parens, origin, scd, sequence, track};
use crate::query::{items, select};
use crate::token::{expect, expect_word, name};
use sql_phrases::Reader;
use sql_tree::{CdcTree, LexemeKind, Select, SqlExpr, SqlOrigin, SqlSequence, Statement};
use std::alloc::Global;
use value_core::{Name, Names};

/// `TRUNCATE WHEN expr`, behind APPLY AS.
#[tactic(auto, unfolding(crate::specs::Descent::truncation))]
fn truncation(alloc: Global, reader: &mut Reader<'_>) -> Result<SqlExpr, ParseError>
    ensures { Gives (spec.truncation limited reader.old) result reader.new }
{
    expect_word(reader, "TRUNCATE")?;
    expect(reader, LexemeKind::When)?;
    outermost(alloc, reader)
}

#[tactic(auto, unfolding(crate::specs::Descent::truncation_part, crate::specs::Descent::maybe))]
fn truncation_part(alloc: Global, reader: &mut Reader<'_>) -> Result<Option<SqlExpr>, ParseError>
    ensures { Gives (spec.truncation_part limited reader.old) result reader.new }
{
    if reader.sees_word("APPLY") {
        expect_word(reader, "APPLY")?;
        expect(reader, LexemeKind::As)?;
        return Ok(Some(truncation(alloc, reader)?));
    }
    Ok(None)
}

/// When events delete, and when they truncate.
type Conditions = (Option<SqlExpr>, Option<SqlExpr>);

/// Behind the first APPLY AS.
#[tactic(auto, unfolding(crate::specs::Descent::first_condition))]
fn first_condition(alloc: Global, reader: &mut Reader<'_>) -> Result<Conditions, ParseError>
    ensures { Gives (spec.first_condition limited reader.old) result reader.new }
{
    if reader.sees_word("DELETE") {
        expect_word(reader, "DELETE")?;
        expect(reader, LexemeKind::When)?;
        let delete = outermost(alloc, reader)?;
        let truncate = truncation_part(alloc, reader)?;
        return Ok((Some(delete), truncate));
    }
    let truncate = truncation(alloc, reader)?;
    Ok((None, Some(truncate)))
}

/// `[APPLY AS DELETE WHEN expr] [APPLY AS TRUNCATE WHEN expr]`
#[tactic(auto, unfolding(crate::specs::Descent::conditions))]
fn conditions(alloc: Global, reader: &mut Reader<'_>) -> Result<Conditions, ParseError>
    ensures { Gives (spec.conditions limited reader.old) result reader.new }
{
    if reader.sees_word("APPLY") {
        expect_word(reader, "APPLY")?;
        expect(reader, LexemeKind::As)?;
        return first_condition(alloc, reader);
    }
    Ok((None, None))
}

/// The clauses of a change feed up to its order.
#[derive(Drop)]
struct Front {
    target: Name,
    origin: SqlOrigin,
    keys: Names,
    ignore_null: bool,
    when: Conditions,
    sequence: SqlSequence,
}

/// `[COLUMNS some] [STORED AS SCD TYPE (1 | 2)] [TRACK HISTORY ON some]`
fn cdc_columns(alloc: Global, reader: &mut Reader<'_>, front: Front) -> Result<CdcTree, ParseError>
    ensures { Gives (spec.cdc_columns limited front.target front.origin front.keys front.ignore_null front.when front.sequence reader.old) result reader.new }
{
    let columns = columns(alloc, reader)?;
    let scd = scd(reader)?;
    let track = track(alloc, reader)?;
    let Front {
        target,
        origin,
        keys,
        ignore_null,
        when: (delete_when, truncate_when),
        sequence,
    } = front;
    Ok(CdcTree {
        target,
        origin,
        keys,
        ignore_null,
        delete_when,
        truncate_when,
        sequence,
        columns,
        scd,
        track,
    })
}

/// `[IGNORE ..] [APPLY AS ..] SEQUENCE BY ..` and the clauses behind it.
fn cdc_order(
    alloc: Global,
    reader: &mut Reader<'_>,
    target: Name,
    origin: SqlOrigin,
    keys: Names,
) -> Result<CdcTree, ParseError>
    ensures { Gives (spec.cdc_order limited target origin keys reader.old) result reader.new }
{
    let ignore_null = ignoring(reader)?;
    let when = conditions(alloc, reader)?;
    expect_word(reader, "SEQUENCE")?;
    expect(reader, LexemeKind::By)?;
    let sequence = sequence(alloc, reader)?;
    let front = Front {
        target,
        origin,
        keys,
        ignore_null,
        when,
        sequence,
    };
    cdc_columns(alloc, reader, front)
}

/// `INTO name FROM origin KEYS "(" names ")"` and the clauses behind it.
#[tactic(auto, unfolding(crate::specs::Descent::cdc))]
fn cdc(alloc: Global, reader: &mut Reader<'_>) -> Result<CdcTree, ParseError>
    ensures { Gives (spec.cdc limited reader.old) result reader.new }
{
    expect_word(reader, "INTO")?;
    let target = name(alloc, reader)?;
    expect(reader, LexemeKind::From)?;
    let origin = origin(alloc, reader)?;
    expect_word(reader, "KEYS")?;
    let keys = names_in_parens(alloc, reader)?;
    cdc_order(alloc, reader, target, origin, keys)
}

#[tactic(auto, unfolding(crate::specs::Descent::query_part, crate::specs::Descent::maybe))]
fn query_part(alloc: Global, reader: &mut Reader<'_>) -> Result<Option<Select>, ParseError>
    ensures { Gives (spec.query_part limited reader.old) result reader.new }
{
    if reader.is_at(LexemeKind::As) {
        expect(reader, LexemeKind::As)?;
        return Ok(Some(select(alloc, reader)?));
    }
    Ok(None)
}

/// Behind `CREATE [OR REFRESH]`.
#[tactic(auto, unfolding(crate::specs::Descent::table))]
fn table(alloc: Global, reader: &mut Reader<'_>) -> Result<Statement, ParseError>
    ensures { Gives (spec.table limited reader.old) result reader.new }
{
    expect_word(reader, "STREAMING")?;
    expect_word(reader, "TABLE")?;
    let name = name(alloc, reader)?;
    let items = items(alloc, reader)?;
    comment(alloc, reader)?;
    let select = query_part(alloc, reader)?;
    Ok(Statement::Table {
        name,
        items,
        select,
    })
}

/// Behind `CREATE [OR REFRESH]`.
#[tactic(auto, unfolding(crate::specs::Descent::view))]
fn view(alloc: Global, reader: &mut Reader<'_>) -> Result<Statement, ParseError>
    ensures { Gives (spec.view limited reader.old) result reader.new }
{
    expect_word(reader, "MATERIALIZED")?;
    expect_word(reader, "VIEW")?;
    let name = name(alloc, reader)?;
    let items = items(alloc, reader)?;
    comment(alloc, reader)?;
    expect(reader, LexemeKind::As)?;
    let select = select(alloc, reader)?;
    Ok(Statement::View {
        name,
        items,
        select,
    })
}

#[tactic(auto, unfolding(crate::specs::Descent::dataset))]
fn dataset(alloc: Global, reader: &mut Reader<'_>) -> Result<Statement, ParseError>
    ensures { Gives (spec.dataset limited reader.old) result reader.new }
{
    if reader.sees_word("STREAMING") {
        return table(alloc, reader);
    }
    view(alloc, reader)
}

/// `INSERT INTO name BY NAME select`
#[tactic(auto, unfolding(crate::specs::Descent::insert))]
fn insert(alloc: Global, reader: &mut Reader<'_>, flow: Name) -> Result<Statement, ParseError>
    ensures { Gives (spec.insert limited flow reader.old) result reader.new }
{
    expect_word(reader, "INSERT")?;
    expect_word(reader, "INTO")?;
    let target = name(alloc, reader)?;
    expect(reader, LexemeKind::By)?;
    expect_word(reader, "NAME")?;
    let select = select(alloc, reader)?;
    Ok(Statement::Insert {
        flow,
        target,
        select,
    })
}

/// `AUTO CDC | APPLY CHANGES`
#[tactic(auto, unfolding(crate::specs::Descent::feed_words))]
fn feed_words(reader: &mut Reader<'_>) -> Result<(), ParseError>
    ensures { Gives (spec.feed_words limited reader.old) result reader.new }
{
    if reader.sees_word("AUTO") {
        expect_word(reader, "AUTO")?;
        return expect_word(reader, "CDC");
    }
    expect_word(reader, "APPLY")?;
    expect_word(reader, "CHANGES")
}

#[tactic(auto, unfolding(crate::specs::Descent::feed))]
fn feed(alloc: Global, reader: &mut Reader<'_>, flow: Name) -> Result<Statement, ParseError>
    ensures { Gives (spec.feed limited flow reader.old) result reader.new }
{
    feed_words(reader)?;
    let rest = cdc(alloc, reader)?;
    Ok(Statement::Cdc { flow, rest })
}

#[tactic(auto, unfolding(crate::specs::Descent::flow_body))]
fn flow_body(alloc: Global, reader: &mut Reader<'_>, flow: Name) -> Result<Statement, ParseError>
    ensures { Gives (spec.flow_body limited flow reader.old) result reader.new }
{
    if reader.sees_word("INSERT") {
        return insert(alloc, reader, flow);
    }
    feed(alloc, reader, flow)
}

/// Behind CREATE.
#[tactic(auto, unfolding(crate::specs::Descent::flow_of))]
fn flow(alloc: Global, reader: &mut Reader<'_>) -> Result<Statement, ParseError>
    ensures { Gives (spec.flow_of limited reader.old) result reader.new }
{
    expect_word(reader, "FLOW")?;
    let name = name(alloc, reader)?;
    expect(reader, LexemeKind::As)?;
    flow_body(alloc, reader, name)
}

#[tactic(auto, unfolding(crate::specs::Descent::replaced))]
fn replaced(alloc: Global, reader: &mut Reader<'_>) -> Result<Statement, ParseError>
    ensures { Gives (spec.replaced limited reader.old) result reader.new }
{
    expect(reader, LexemeKind::Or)?;
    expect_word(reader, "REFRESH")?;
    dataset(alloc, reader)
}

/// Behind CREATE.
#[tactic(auto, unfolding(crate::specs::Descent::created))]
fn created(alloc: Global, reader: &mut Reader<'_>) -> Result<Statement, ParseError>
    ensures { Gives (spec.created limited reader.old) result reader.new }
{
    if reader.is_at(LexemeKind::Or) {
        return replaced(alloc, reader);
    }
    if reader.sees_word("FLOW") {
        return flow(alloc, reader);
    }
    dataset(alloc, reader)
}

/// `APPLY CHANGES ..`: a flow that has the name of its target.
#[tactic(auto, unfolding(crate::specs::Descent::apply))]
fn apply(alloc: Global, reader: &mut Reader<'_>) -> Result<Statement, ParseError>
    ensures { Gives (spec.apply limited reader.old) result reader.new }
{
    expect_word(reader, "APPLY")?;
    expect_word(reader, "CHANGES")?;
    let rest = cdc(alloc, reader)?;
    let flow = rest.target.copy(alloc)?;
    Ok(Statement::Cdc { flow, rest })
}

/// One statement.
#[tactic(auto, unfolding(crate::specs::Descent::statement_of))]
pub fn statement(alloc: Global, reader: &mut Reader<'_>) -> Result<Statement, ParseError>
    ensures { Gives (spec.statement_of limited reader.old) result reader.new }
{
    if reader.is_at(LexemeKind::Create) {
        expect(reader, LexemeKind::Create)?;
        return created(alloc, reader);
    }
    apply(alloc, reader)
}
