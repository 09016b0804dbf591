//! The print of queries and statements.

ghost use Rattle.std.specs.Prelude.{◌≡◌, ◌<◌, [], ◌∷◌, ◌++◌, if◌then◌else◌, true, map, length, All, OnOk, IfOk, codes};
ghost use Rattle.sql_tree.specs.Print as print;
ghost use Rattle.sql_tree.specs.Spelling.{spelled};
ghost use Rattle.sql_print.specs.Clauses.{cdc_front, ignore_null, apply_when, columns, stored, track, table_front, view_front, insert_into};
ghost use Rattle.sql_print.specs.Placed.{statements_at};
ghost use Rattle.sql_print.specs.Writing.{put, puts};

use crate::expressions::{expr, exprs, truth, type_word};
use crate::writer::Writer;
use sql_tree::{
    CdcTree, LexemeKind, OptionValue, Out, Select, SqlAction, SqlExpr, SqlItem, SqlOption,
    SqlOrigin, SqlSequence, SqlSome, Statement, Statements,
};
use std::alloc::{AllocError, Global};
use value_core::{Name, Text};

fn comma_names(out: &mut Writer, list: &[Name]) -> Result<(), AllocError>
    ensures { OnOk result (out.new ≡ puts out.old (print.separated (map print.one_name list.now))) }
{
    let mut goes_on = false;
    for name in list {
        out.token_if(goes_on, LexemeKind::Comma)?;
        out.name(name)?;
        goes_on = true;
    }
    Ok(())
}

/// Names in parentheses.
#[tactic(auto, using(crate::proofs::PutLemmas::puts_append))]
fn names(out: &mut Writer, list: &[Name]) -> Result<(), AllocError>
    ensures { OnOk result (out.new ≡ puts out.old (print.names list.now)) }
{
    out.token(LexemeKind::LParen)?;
    comma_names(out, list)?;
    out.token(LexemeKind::RParen)
}

fn option(out: &mut Writer, option: &SqlOption) -> Result<(), AllocError>
    ensures { OnOk result (out.new ≡ puts out.old (print.option_print option.now)) }
{
    out.option_word(&option.word)?;
    out.token(LexemeKind::Arrow)?;
    match &option.value {
        OptionValue::Str(text) => out.string(text),
        OptionValue::Bool(is_true) => truth(out, *is_true),
    }
}

/// The path and the options of `read_files`.
fn files(out: &mut Writer, path: &Text, options: &[SqlOption]) -> Result<(), AllocError>
    ensures { OnOk result (out.new ≡ puts out.old
        (print.separated ((print.string path.now ∷ []) ∷ map print.option_print options.now))) }
{
    out.string(path)?;
    for one in options {
        out.token(LexemeKind::Comma)?;
        option(out, one)?;
    }
    Ok(())
}

#[tactic(auto, using(crate::proofs::PutLemmas::puts_append))]
fn read_files(out: &mut Writer, path: &Text, options: &[SqlOption]) -> Result<(), AllocError>
    ensures { OnOk result (out.new ≡ puts out.old (print.word (codes "read_files") ∷ print.in_parens
        (print.separated ((print.string path.now ∷ []) ∷ map print.option_print options.now)))) }
{
    out.word("read_files")?;
    out.token(LexemeKind::LParen)?;
    files(out, path, options)?;
    out.token(LexemeKind::RParen)
}

#[tactic(auto, using(crate::proofs::PutLemmas::puts_append))]
fn origin(out: &mut Writer, origin: &SqlOrigin) -> Result<(), AllocError>
    ensures { OnOk result (out.new ≡ puts out.old (print.origin_print origin.now)) }
{
    match origin {
        SqlOrigin::Table { stream, name } => {
            out.token_if(*stream, LexemeKind::Stream)?;
            out.name(name)
        }
        SqlOrigin::Files {
            stream,
            path,
            options,
        } => {
            out.token_if(*stream, LexemeKind::Stream)?;
            read_files(out, path, options.as_slice())
        }
    }
}

#[tactic(auto, using(crate::proofs::PutLemmas::puts_append))]
fn output(out: &mut Writer, alloc: Global, output: &Out) -> Result<(), AllocError>
    ensures { OnOk result (out.new ≡ puts out.old (print.out_print output.now)) }
{
    match output {
        Out::Star { except } => {
            out.token(LexemeKind::Star)?;
            if except.is_empty() {
                return Ok(());
            }
            out.token(LexemeKind::Except)?;
            names(out, except.as_slice())
        }
        Out::One {
            expr: tree,
            name: None,
        } => expr(out, alloc, tree),
        Out::One {
            expr: tree,
            name: Some(name),
        } => {
            expr(out, alloc, tree)?;
            out.token(LexemeKind::As)?;
            out.name(name)
        }
    }
}

fn outputs(out: &mut Writer, alloc: Global, list: &[Out]) -> Result<(), AllocError>
    ensures { OnOk result (out.new ≡ puts out.old (print.separated (map print.out_print list.now))) }
{
    let mut goes_on = false;
    for one in list {
        out.token_if(goes_on, LexemeKind::Comma)?;
        output(out, alloc, one)?;
        goes_on = true;
    }
    Ok(())
}

fn groups(out: &mut Writer, alloc: Global, list: &[SqlExpr]) -> Result<(), AllocError>
    ensures { OnOk result (out.new ≡ puts out.old (print.group_print list.now)) }
{
    match list {
        [] => Ok(()),
        [_, ..] => {
            out.token(LexemeKind::Group)?;
            out.token(LexemeKind::By)?;
            exprs(out, alloc, list)
        }
    }
}

fn filter(out: &mut Writer, alloc: Global, tree: &Option<SqlExpr>) -> Result<(), AllocError>
    ensures { OnOk result (out.new ≡ puts out.old
        (print.if_some (λ x. print.token LexemeKind.Where ∷ print.expr_print x) tree.now)) }
{
    match tree {
        None => Ok(()),
        Some(tree) => {
            out.token(LexemeKind::Where)?;
            expr(out, alloc, tree)
        }
    }
}

#[tactic(auto, using(crate::proofs::PutLemmas::puts_append))]
fn select(out: &mut Writer, alloc: Global, select: &Select) -> Result<(), AllocError>
    ensures { OnOk result (out.new ≡ puts out.old (print.select_print select.now)) }
{
    out.token(LexemeKind::Select)?;
    outputs(out, alloc, select.outs.as_slice())?;
    out.token(LexemeKind::From)?;
    origin(out, &select.origin)?;
    filter(out, alloc, &select.filter)?;
    groups(out, alloc, select.groups.as_slice())
}

/// `AS` and a query, where there is one.
fn as_select(out: &mut Writer, alloc: Global, query: &Option<Select>) -> Result<(), AllocError>
    ensures { OnOk result (out.new ≡ puts out.old
        (print.if_some (λ s. print.token LexemeKind.As ∷ print.select_print s) query.now)) }
{
    match query {
        None => Ok(()),
        Some(query) => {
            out.token(LexemeKind::As)?;
            select(out, alloc, query)
        }
    }
}

fn on_violation(out: &mut Writer) -> Result<(), AllocError>
    ensures { OnOk result (out.new ≡ puts out.old
        (print.token LexemeKind.On ∷ print.word (codes "VIOLATION") ∷ [])) }
{
    out.token(LexemeKind::On)?;
    out.word("VIOLATION")
}

fn action(out: &mut Writer, action: SqlAction) -> Result<(), AllocError>
    ensures { OnOk result (out.new ≡ puts out.old (print.action_print action)) }
{
    match action {
        SqlAction::Warn => Ok(()),
        SqlAction::DropRow => {
            on_violation(out)?;
            out.word("DROP")?;
            out.word("ROW")
        }
        SqlAction::FailUpdate => {
            on_violation(out)?;
            out.word("FAIL")?;
            out.word("UPDATE")
        }
    }
}

#[tactic(auto, using(crate::proofs::PutLemmas::puts_append))]
fn item(out: &mut Writer, alloc: Global, item: &SqlItem) -> Result<(), AllocError>
    ensures { OnOk result (out.new ≡ puts out.old (print.item_print item.now)) }
{
    match item {
        SqlItem::Column { name, kind } => {
            out.name(name)?;
            type_word(out, *kind)
        }
        SqlItem::Expect {
            name,
            test,
            action: then,
        } => {
            out.token(LexemeKind::Constraint)?;
            out.name(name)?;
            out.word("EXPECT")?;
            out.token(LexemeKind::LParen)?;
            expr(out, alloc, test)?;
            out.token(LexemeKind::RParen)?;
            action(out, *then)
        }
    }
}

fn comma_items(out: &mut Writer, alloc: Global, list: &[SqlItem]) -> Result<(), AllocError>
    ensures { OnOk result (out.new ≡ puts out.old (print.separated (map print.item_print list.now))) }
{
    let mut goes_on = false;
    for one in list {
        out.token_if(goes_on, LexemeKind::Comma)?;
        item(out, alloc, one)?;
        goes_on = true;
    }
    Ok(())
}

#[tactic(auto, using(crate::proofs::PutLemmas::puts_append))]
fn items(out: &mut Writer, alloc: Global, list: &[SqlItem]) -> Result<(), AllocError>
    ensures { OnOk result (out.new ≡ puts out.old (print.items_print list.now)) }
{
    match list {
        [] => Ok(()),
        [_, ..] => {
            out.token(LexemeKind::LParen)?;
            comma_items(out, alloc, list)?;
            out.token(LexemeKind::RParen)
        }
    }
}

fn sequence(out: &mut Writer, sequence: &SqlSequence) -> Result<(), AllocError>
    ensures { OnOk result (out.new ≡ puts out.old (print.sequence_print sequence.now)) }
{
    match sequence {
        SqlSequence::One(name) => out.name(name),
        SqlSequence::Struct(list) => {
            out.token(LexemeKind::Struct)?;
            names(out, list.as_slice())
        }
    }
}

fn some(out: &mut Writer, some: &SqlSome) -> Result<(), AllocError>
    ensures { OnOk result (out.new ≡ puts out.old (print.some_print some.now)) }
{
    match some {
        SqlSome::Except(list) => {
            out.token(LexemeKind::Star)?;
            out.token(LexemeKind::Except)?;
            names(out, list.as_slice())
        }
        SqlSome::Only(list) => names(out, list.as_slice()),
    }
}

#[tactic(auto, using(crate::proofs::PutLemmas::puts_append))]
fn cdc_front(out: &mut Writer, tree: &CdcTree) -> Result<(), AllocError>
    ensures { OnOk result (out.new ≡ puts out.old (cdc_front tree.now)) }
{
    out.word("INTO")?;
    out.name(&tree.target)?;
    out.token(LexemeKind::From)?;
    origin(out, &tree.origin)?;
    out.word("KEYS")?;
    names(out, tree.keys.as_slice())
}

fn ignore_null_updates(out: &mut Writer) -> Result<(), AllocError>
    ensures { OnOk result (out.new ≡ puts out.old (ignore_null true)) }
{
    out.word("IGNORE")?;
    out.token(LexemeKind::Null)?;
    out.word("UPDATES")
}

fn ignore_null(out: &mut Writer, ignores: bool) -> Result<(), AllocError>
    ensures { OnOk result (out.new ≡ puts out.old (ignore_null ignores)) }
{
    if ignores {
        ignore_null_updates(out)
    } else {
        Ok(())
    }
}

/// `APPLY AS DELETE WHEN`, or the like with another word.
fn apply_when(
    out: &mut Writer,
    alloc: Global,
    word: &str,
    tree: &Option<SqlExpr>,
) -> Result<(), AllocError>
    ensures { OnOk result (out.new ≡ puts out.old (apply_when word.now tree.now)) }
{
    match tree {
        None => Ok(()),
        Some(tree) => {
            out.word("APPLY")?;
            out.token(LexemeKind::As)?;
            out.word(word)?;
            out.token(LexemeKind::When)?;
            expr(out, alloc, tree)
        }
    }
}

fn columns(out: &mut Writer, listed: &Option<SqlSome>) -> Result<(), AllocError>
    ensures { OnOk result (out.new ≡ puts out.old (columns listed.now)) }
{
    match listed {
        None => Ok(()),
        Some(listed) => {
            out.word("COLUMNS")?;
            some(out, listed)
        }
    }
}

fn stored(out: &mut Writer, alloc: Global, scd: Option<u8>) -> Result<(), AllocError>
    ensures { OnOk result (out.new ≡ puts out.old (stored scd)) }
{
    match scd {
        None => Ok(()),
        Some(number) => {
            out.word("STORED")?;
            out.token(LexemeKind::As)?;
            out.word("SCD")?;
            out.word("TYPE")?;
            out.number(alloc, u64::from(number))
        }
    }
}

fn track(out: &mut Writer, listed: &Option<SqlSome>) -> Result<(), AllocError>
    ensures { OnOk result (out.new ≡ puts out.old (track listed.now)) }
{
    match listed {
        None => Ok(()),
        Some(listed) => {
            out.word("TRACK")?;
            out.word("HISTORY")?;
            out.token(LexemeKind::On)?;
            some(out, listed)
        }
    }
}

#[tactic(auto, using(crate::proofs::PutLemmas::puts_append))]
fn cdc(out: &mut Writer, alloc: Global, tree: &CdcTree) -> Result<(), AllocError>
    ensures { OnOk result (out.new ≡ puts out.old (print.cdc_print tree.now)) }
{
    cdc_front(out, tree)?;
    ignore_null(out, tree.ignore_null)?;
    apply_when(out, alloc, "DELETE", &tree.delete_when)?;
    apply_when(out, alloc, "TRUNCATE", &tree.truncate_when)?;
    out.word("SEQUENCE")?;
    out.token(LexemeKind::By)?;
    sequence(out, &tree.sequence)?;
    columns(out, &tree.columns)?;
    stored(out, alloc, tree.scd)?;
    track(out, &tree.track)
}

fn create(out: &mut Writer) -> Result<(), AllocError>
    ensures { OnOk result (out.new ≡ puts out.old print.create) }
{
    out.token(LexemeKind::Create)?;
    out.token(LexemeKind::Or)?;
    out.word("REFRESH")
}

fn flow(out: &mut Writer, name: &Name) -> Result<(), AllocError>
    ensures { OnOk result (out.new ≡ puts out.old (print.flow_print name.now)) }
{
    out.token(LexemeKind::Create)?;
    out.word("FLOW")?;
    out.name(name)?;
    out.token(LexemeKind::As)
}

fn table_front(out: &mut Writer, name: &Name) -> Result<(), AllocError>
    ensures { OnOk result (out.new ≡ puts out.old (table_front name.now)) }
{
    create(out)?;
    out.word("STREAMING")?;
    out.word("TABLE")?;
    out.name(name)
}

fn view_front(out: &mut Writer, name: &Name) -> Result<(), AllocError>
    ensures { OnOk result (out.new ≡ puts out.old (view_front name.now)) }
{
    create(out)?;
    out.word("MATERIALIZED")?;
    out.word("VIEW")?;
    out.name(name)
}

fn insert_into(out: &mut Writer, target: &Name) -> Result<(), AllocError>
    ensures { OnOk result (out.new ≡ puts out.old (insert_into target.now)) }
{
    out.word("INSERT")?;
    out.word("INTO")?;
    out.name(target)?;
    out.token(LexemeKind::By)?;
    out.word("NAME")
}

#[tactic(auto, using(crate::proofs::PutLemmas::puts_append))]
fn statement(out: &mut Writer, alloc: Global, tree: &Statement) -> Result<(), AllocError>
    ensures { OnOk result (out.new ≡ puts out.old (print.statement_print tree.now)) }
{
    match tree {
        Statement::Table {
            name,
            items: declared,
            select: query,
        } => {
            table_front(out, name)?;
            items(out, alloc, declared.as_slice())?;
            as_select(out, alloc, query)
        }
        Statement::View {
            name,
            items: declared,
            select: query,
        } => {
            view_front(out, name)?;
            items(out, alloc, declared.as_slice())?;
            out.token(LexemeKind::As)?;
            select(out, alloc, query)
        }
        Statement::Insert {
            flow: name,
            target,
            select: query,
        } => {
            flow(out, name)?;
            insert_into(out, target)?;
            select(out, alloc, query)
        }
        Statement::Cdc { flow: name, rest } => {
            flow(out, name)?;
            out.word("AUTO")?;
            out.word("CDC")?;
            cdc(out, alloc, rest)
        }
    }
}

fn all(out: &mut Writer, alloc: Global, list: &[Statement]) -> Result<(), AllocError>
    ensures { OnOk result (out.new ≡ puts out.old (print.print list.now)) }
{
    let mut goes_on = false;
    for tree in list {
        out.token_if(goes_on, LexemeKind::Semicolon)?;
        statement(out, alloc, tree)?;
        goes_on = true;
    }
    Ok(())
}

/// The canonical print of statements. Texts that differ in blanks, comments, COMMENT clauses, letters of keywords,
/// parentheses or the ways to write one thing have one print. A dataset's definition text is the print of its statement
/// and then of its flows in declared order.
#[tactic(auto, using(crate::proofs::PutLemmas::puts_spelled))]
pub fn print(alloc: Global, statements: &Statements) -> Result<Text, AllocError>
    ensures { IfOk result (λ text. text ≡ spelled (print.print statements.now)) }
{
    let mut out = Writer::new(alloc);
    all(&mut out, alloc, statements.as_slice())?;
    Ok(out.into_text())
}

fn placed(
    out: &mut Writer,
    alloc: Global,
    list: &[Statement],
    places: &[usize],
) -> Result<(), AllocError>
    requires { All (λ at. at < length list.now) places.now }
    ensures { OnOk result (out.new ≡ puts out.old (print.print (statements_at list.now places.now))) }
{
    let mut goes_on = false;
    for place in places {
        out.token_if(goes_on, LexemeKind::Semicolon)?;
        statement(out, alloc, &list[*place])?;
        goes_on = true;
    }
    Ok(())
}

/// The canonical print of the statements at these places of a list, in their order, each place below
/// its length: the definition text of a dataset, whose statement and flows stand among those of
/// others.
#[tactic(auto, using(crate::proofs::PutLemmas::puts_spelled))]
pub fn print_placed(
    alloc: Global,
    statements: &[Statement],
    places: &[usize],
) -> Result<Text, AllocError>
    requires { All (λ at. at < length statements.now) places.now }
    ensures { IfOk result (λ text. text ≡ spelled (print.print (statements_at statements.now places.now))) }
{
    let mut out = Writer::new(alloc);
    placed(&mut out, alloc, statements, places)?;
    Ok(out.into_text())
}
