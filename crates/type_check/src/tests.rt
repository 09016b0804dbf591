use crate::{CheckFault, CheckRefusal, check};
use plan_core::{Body, Dataset, Origin, Plan};
use row_expr::Expr;
use sql_tree::{
    OptionValue, Out, Outs, Select, SqlExpr, SqlExprs, SqlItem, SqlItems, SqlOption, SqlOptions,
    SqlOrigin, SqlType, Statement, Statements,
};
use std::alloc::{AllocError, Global};
use std::test::Fail;
use value_core::{Column, Format, Kind, ListOf, Name, Names, Text};

// ---- statements of the built form, by their parts

type Declared<'a> = &'a [(&'a str, SqlType)];

/// Names or words, each with its own name or its value.
type Pairs<'a> = &'a [(&'a str, &'a str)];

/// What is declared, what is selected, whether it is a stream, the options, and whether it is
/// grouped.
#[derive(Clone, Copy)]
struct Parts<'a> {
    declared: Declared<'a>,
    outs: Pairs<'a>,
    stream: bool,
    options: Pairs<'a>,
    grouped: bool,
}

fn text_option(alloc: Global, word: &str, text: &str) -> Result<SqlOption, AllocError> {
    let word = Name::new(alloc, word)?;
    let text = Text::new(alloc, text)?;
    Ok(SqlOption {
        word,
        value: OptionValue::Str(text),
    })
}

fn options_of(alloc: Global, pairs: Pairs) -> Result<SqlOptions, AllocError> {
    let mut options = SqlOptions::new(alloc);
    for (word, text) in pairs {
        options.push(text_option(alloc, word, text)?)?;
    }
    Ok(options)
}

fn name_if(alloc: Global, own: &str) -> Result<Option<Name>, AllocError> {
    if own.is_empty() {
        return Ok(None);
    }
    let name = Name::new(alloc, own)?;
    Ok(Some(name))
}

/// `*`, or a column under its own name unless that is empty.
fn out_of(alloc: Global, column: &str, own: &str) -> Result<Out, AllocError> {
    if column == "*" {
        return Ok(Out::Star {
            except: ListOf::new(alloc),
        });
    }
    let column = Name::new(alloc, column)?;
    let name = name_if(alloc, own)?;
    Ok(Out::One {
        expr: SqlExpr::Name(column),
        name,
    })
}

fn outs_of(alloc: Global, pairs: Pairs) -> Result<Outs, AllocError> {
    let mut outs = Outs::new(alloc);
    for (column, own) in pairs {
        outs.push(out_of(alloc, column, own)?)?;
    }
    Ok(outs)
}

fn items_of(alloc: Global, columns: Declared) -> Result<SqlItems, AllocError> {
    let mut items = SqlItems::new(alloc);
    for (name, kind) in columns {
        let name = Name::new(alloc, name)?;
        items.push(SqlItem::Column { name, kind: *kind })?;
    }
    Ok(items)
}

fn groups_if(alloc: Global, grouped: bool) -> Result<SqlExprs, AllocError> {
    let mut groups = SqlExprs::new(alloc);
    if grouped {
        groups.push(SqlExpr::Null)?;
    }
    Ok(groups)
}

fn origin_of(alloc: Global, stream: bool, options: Pairs) -> Result<SqlOrigin, AllocError> {
    let path = Text::new(alloc, "/in/")?;
    let options = options_of(alloc, options)?;
    Ok(SqlOrigin::Files {
        stream,
        path,
        options,
    })
}

fn select_of(alloc: Global, parts: &Parts) -> Result<Select, AllocError> {
    let outs = outs_of(alloc, parts.outs)?;
    let origin = origin_of(alloc, parts.stream, parts.options)?;
    let groups = groups_if(alloc, parts.grouped)?;
    Ok(Select {
        outs,
        origin,
        filter: None,
        groups,
    })
}

fn table_as(
    alloc: Global,
    items: SqlItems,
    select: Option<Select>,
) -> Result<Statement, AllocError> {
    let name = Name::new(alloc, "t")?;
    Ok(Statement::Table {
        name,
        items,
        select,
    })
}

fn table_of(alloc: Global, parts: &Parts) -> Result<Statement, AllocError> {
    let items = items_of(alloc, parts.declared)?;
    let select = select_of(alloc, parts)?;
    table_as(alloc, items, Some(select))
}

fn one(alloc: Global, statement: Statement) -> Result<Statements, AllocError> {
    let mut statements = Statements::new(alloc);
    statements.push(statement)?;
    Ok(statements)
}

const JSON: [(&str, &str); 2] = [("format", "json"), ("schema", "a INT, b BIGINT")];

/// A table of this form without faults.
fn plain_table(alloc: Global) -> Result<Statement, AllocError> {
    let parts = Parts {
        declared: &[],
        outs: &[("*", "")],
        stream: true,
        options: &JSON,
        grouped: false,
    };
    table_of(alloc, &parts)
}

// ---- faults

/// What a fault is called, and what it names.
fn told(fault: &CheckFault) -> (&str, &str) {
    match fault {
        CheckFault::NotYet => ("not yet", ""),
        CheckFault::Duplicate { name } => ("duplicate", name.as_str()),
        CheckFault::TooMany { count } => ("too many", if *count == 257 { "257" } else { "" }),
        CheckFault::NotStreaming { name } => ("not streaming", name.as_str()),
        CheckFault::BadOption { word } => ("bad option", word.as_str()),
        CheckFault::AggregateInStream => ("aggregate", ""),
        CheckFault::UnknownName { name } => ("unknown", name.as_str()),
        CheckFault::SchemaDiffers { name } => ("differs", name.as_str()),
    }
}

fn is_told(fault: &CheckFault, what: &str, named: &str) -> bool {
    let (found, name) = told(fault);
    found == what && name == named
}

/// Whether that statement is refused so; where nothing is named so, whether there is a plan.
fn comes(
    alloc: Global,
    statements: &Statements,
    at: u32,
    what: &str,
    named: &str,
) -> Result<bool, AllocError> {
    match check(alloc, statements) {
        Ok(_) => Ok(what == ""),
        Err(CheckRefusal::Refused { statement, fault }) => {
            Ok(statement == at && is_told(&fault, what, named))
        }
        Err(CheckRefusal::Memory) => Err(AllocError),
    }
}

fn table_comes(alloc: Global, parts: &Parts, what: &str, named: &str) -> Result<bool, AllocError> {
    let statement = table_of(alloc, parts)?;
    let statements = one(alloc, statement)?;
    comes(alloc, &statements, 1, what, named)
}

#[test]
fn each_check_is_told_in_its_order(rt: HostRuntime) -> Result<(), Fail> {
    let int = SqlType::Int;
    let big = SqlType::Big;
    let bad: [(&str, &str); 1] = [("format", "json")];
    let cases: [(Declared, Pairs, bool, Pairs, bool, &str, &str); 13] = [
        (
            &[("a", int), ("b", big), ("A", int), ("B", int)],
            &[("x", "")],
            false,
            &bad,
            true,
            "duplicate",
            "A",
        ),
        (
            &[("a", int)],
            &[("x", "")],
            false,
            &bad,
            true,
            "bad option",
            "schema",
        ),
        (
            &[("a", int)],
            &[("x", "")],
            false,
            &JSON,
            true,
            "not streaming",
            "read_files",
        ),
        (
            &[("a", int)],
            &[("x", "")],
            true,
            &JSON,
            true,
            "aggregate",
            "",
        ),
        (
            &[("a", int)],
            &[("a", ""), ("A", ""), ("x", "y"), ("z", "")],
            true,
            &JSON,
            false,
            "unknown",
            "x",
        ),
        (
            &[("a", int)],
            &[("a", ""), ("b", "A")],
            true,
            &JSON,
            false,
            "duplicate",
            "A",
        ),
        (
            &[],
            &[("*", ""), ("B", "")],
            true,
            &JSON,
            false,
            "duplicate",
            "b",
        ),
        (
            &[],
            &[("*", ""), ("*", "")],
            true,
            &JSON,
            false,
            "duplicate",
            "a",
        ),
        (
            &[("a", int)],
            &[("*", "")],
            true,
            &JSON,
            false,
            "differs",
            "b",
        ),
        (
            &[("a", int), ("b", int)],
            &[("*", "")],
            true,
            &JSON,
            false,
            "differs",
            "b",
        ),
        (
            &[("b", big), ("a", int)],
            &[("*", "")],
            true,
            &JSON,
            false,
            "differs",
            "a",
        ),
        (
            &[("a", int), ("b", big), ("c", int)],
            &[("*", "")],
            true,
            &JSON,
            false,
            "differs",
            "c",
        ),
        (
            &[("A", int), ("B", big)],
            &[("*", "")],
            true,
            &JSON,
            false,
            "",
            "",
        ),
    ];
    for (declared, outs, stream, options, grouped, what, named) in cases {
        let parts = Parts {
            declared,
            outs,
            stream,
            options,
            grouped,
        };
        let holds = table_comes(rt.alloc(), &parts, what, named)?;
        assert!(rt; holds, "{what} {named}");
    }
    Ok(())
}

/// So many declared columns of different names.
fn many_items(alloc: Global, count: usize) -> Result<SqlItems, AllocError> {
    let mut items = SqlItems::new(alloc);
    let mut name = String::new(alloc);
    for _ in 0..count {
        name.push_str("c")?;
        items.push(SqlItem::Column {
            name: Name::new(alloc, name.as_str())?,
            kind: SqlType::Int,
        })?;
    }
    Ok(items)
}

fn table_with(alloc: Global, items: SqlItems) -> Result<Statements, AllocError> {
    let parts = Parts {
        declared: &[],
        outs: &[("*", "")],
        stream: true,
        options: &JSON,
        grouped: false,
    };
    let select = select_of(alloc, &parts)?;
    let statement = table_as(alloc, items, Some(select))?;
    one(alloc, statement)
}

fn columns_come(alloc: Global, count: usize, what: &str, named: &str) -> Result<bool, AllocError> {
    let items = many_items(alloc, count)?;
    let statements = table_with(alloc, items)?;
    comes(alloc, &statements, 1, what, named)
}

#[test]
fn a_table_has_at_most_256_columns(rt: HostRuntime) -> Result<(), Fail> {
    assert!(rt; columns_come(rt.alloc(), 257, "too many", "257")?);
    assert!(rt; columns_come(rt.alloc(), 256, "differs", "a")?);
    Ok(())
}

/// So many outputs of different names, all of one column.
fn many_outs(alloc: Global, count: usize) -> Result<Outs, AllocError> {
    let mut outs = Outs::new(alloc);
    let mut name = String::new(alloc);
    for _ in 0..count {
        name.push_str("c")?;
        outs.push(out_of(alloc, "a", name.as_str())?)?;
    }
    Ok(outs)
}

fn outs_come(alloc: Global, count: usize, what: &str, named: &str) -> Result<bool, AllocError> {
    let outs = many_outs(alloc, count)?;
    let select = select_from(alloc, outs, false)?;
    let statement = table_as(alloc, SqlItems::new(alloc), Some(select))?;
    let statements = one(alloc, statement)?;
    comes(alloc, &statements, 1, what, named)
}

#[test]
fn a_query_gives_at_most_256_columns(rt: HostRuntime) -> Result<(), Fail> {
    assert!(rt; outs_come(rt.alloc(), 257, "too many", "257")?);
    assert!(rt; outs_come(rt.alloc(), 256, "", "")?);
    Ok(())
}

// ---- forms

fn select_from(alloc: Global, outs: Outs, filter: bool) -> Result<Select, AllocError> {
    let origin = origin_of(alloc, true, &JSON)?;
    let groups = SqlExprs::new(alloc);
    Ok(Select {
        outs,
        origin,
        filter: if filter { Some(SqlExpr::Null) } else { None },
        groups,
    })
}

fn selected_comes(alloc: Global, outs: Outs, filter: bool, what: &str) -> Result<bool, AllocError> {
    let select = select_from(alloc, outs, filter)?;
    let statement = table_as(alloc, SqlItems::new(alloc), Some(select))?;
    let statements = one(alloc, statement)?;
    comes(alloc, &statements, 1, what, "")
}

fn star_but(alloc: Global, name: &str) -> Result<Outs, AllocError> {
    let mut except: Names = ListOf::new(alloc);
    except.push(Name::new(alloc, name)?)?;
    let mut outs = Outs::new(alloc);
    outs.push(Out::Star { except })?;
    Ok(outs)
}

fn literal(alloc: Global) -> Result<Outs, AllocError> {
    let mut outs = Outs::new(alloc);
    outs.push(Out::One {
        expr: SqlExpr::Number(1),
        name: None,
    })?;
    Ok(outs)
}

#[test]
fn a_select_of_another_form_is_not_yet_supported(rt: HostRuntime) -> Result<(), Fail> {
    let alloc = rt.alloc();
    assert!(rt; selected_comes(alloc, outs_of(alloc, &[("*", "")])?, false, "")?);
    assert!(rt; selected_comes(alloc, outs_of(alloc, &[("*", "")])?, true, "not yet")?);
    assert!(rt; selected_comes(alloc, star_but(alloc, "a")?, false, "not yet")?);
    assert!(rt; selected_comes(alloc, literal(alloc)?, false, "not yet")?);
    Ok(())
}

/// A table without AS.
fn bare_table(alloc: Global) -> Result<Statement, AllocError> {
    table_as(alloc, SqlItems::new(alloc), None)
}

fn two(alloc: Global, first: Statement, second: Statement) -> Result<Statements, AllocError> {
    let mut statements = one(alloc, first)?;
    statements.push(second)?;
    Ok(statements)
}

#[test]
fn the_first_statement_of_another_form_is_told(rt: HostRuntime) -> Result<(), Fail> {
    let alloc = rt.alloc();
    let statements = Statements::new(alloc);
    assert!(rt; comes(alloc, &statements, 0, "", "")?);
    let statements = one(alloc, bare_table(alloc)?)?;
    assert!(rt; comes(alloc, &statements, 1, "not yet", "")?);
    let statements = two(alloc, plain_table(alloc)?, plain_table(alloc)?)?;
    assert!(rt; comes(alloc, &statements, 2, "not yet", "")?);
    let statements = two(alloc, bare_table(alloc)?, plain_table(alloc)?)?;
    assert!(rt; comes(alloc, &statements, 1, "not yet", "")?);
    Ok(())
}

// ---- plans

fn is_column(column: &Column, name: &str, kind: Kind) -> bool {
    column.name.as_str() == name && column.kind == kind
}

fn reads(expr: &Expr, place: usize, kind: Kind) -> bool {
    match expr {
        Expr::Column(at, found) => *at == place && *found == kind,
        _ => false,
    }
}

/// Whether a table has these columns, each read from its place, and this text.
fn has_columns(dataset: &Dataset, columns: &[(&str, Kind, usize)]) -> bool {
    let Body::Append(flows) = &dataset.body else {
        return false;
    };
    let Some(flow) = flows.as_slice().first() else {
        return false;
    };
    let mut found = dataset.columns.as_slice();
    let mut exprs = flow.outputs.as_slice();
    for (name, kind, place) in columns {
        let Some((column, more_columns)) = found.split_first() else {
            return false;
        };
        let Some((expr, more_exprs)) = exprs.split_first() else {
            return false;
        };
        if !is_column(column, name, *kind) || !reads(expr, *place, *kind) {
            return false;
        }
        found = more_columns;
        exprs = more_exprs;
    }
    found.is_empty() && exprs.is_empty()
}

fn reads_from(dataset: &Dataset, dir: &str, format: Format) -> bool {
    let Body::Append(flows) = &dataset.body else {
        return false;
    };
    let Some(flow) = flows.as_slice().first() else {
        return false;
    };
    match &flow.origin {
        Origin::Files { dir: found, shape } => found.as_str() == dir && shape.format == format,
        Origin::Table { name: _ } => false,
    }
}

fn planned(alloc: Global, statement: Statement) -> Result<Plan, CheckRefusal> {
    let statements = match one(alloc, statement) {
        Ok(statements) => statements,
        Err(AllocError) => return Err(CheckRefusal::Memory),
    };
    check(alloc, &statements)
}

#[test]
fn a_table_of_all_columns_is_planned(rt: HostRuntime) -> Result<(), Fail> {
    let columns = [("a", Kind::Int, 0), ("b", Kind::Big, 1)];
    let Ok(plan) = planned(rt.alloc(), plain_table(rt.alloc())?) else {
        assert!(rt; false);
        return Ok(());
    };
    let Some(table) = plan.as_slice().first() else {
        assert!(rt; false);
        return Ok(());
    };
    assert!(rt; table.name.as_str() == "t" && table.level == 0);
    assert!(rt;
        table.text.as_str()
            == "CREATE OR REFRESH STREAMING TABLE t AS SELECT * FROM STREAM read_files ( '/in/' , format => 'json' , schema => 'a INT, b BIGINT' )"
    );
    assert!(rt; has_columns(table, &columns) && reads_from(table, "in", Format::Json));
    Ok(())
}

/// A table over CSV, with columns in another order, renamed, and the rescued one.
fn csv_table(alloc: Global) -> Result<Statement, AllocError> {
    let options = [
        ("format", "csv"),
        ("schema", "a INT, b STRING"),
        ("rescuedDataColumn", "_r"),
    ];
    let parts = Parts {
        declared: &[],
        outs: &[("_R", ""), ("B", ""), ("A", "n")],
        stream: true,
        options: &options,
        grouped: false,
    };
    table_of(alloc, &parts)
}

#[test]
fn named_columns_are_planned(rt: HostRuntime) -> Result<(), Fail> {
    let columns = [
        ("_r", Kind::Str, 2),
        ("b", Kind::Str, 1),
        ("n", Kind::Int, 0),
    ];
    let Ok(plan) = planned(rt.alloc(), csv_table(rt.alloc())?) else {
        assert!(rt; false);
        return Ok(());
    };
    let Some(table) = plan.as_slice().first() else {
        assert!(rt; false);
        return Ok(());
    };
    assert!(rt; has_columns(table, &columns) && reads_from(table, "in", Format::Csv));
    Ok(())
}

fn crosses_threads<T: Send + Sync>() {}

#[test]
fn refusals_cross_threads() {
    crosses_threads::<CheckRefusal>();
}
