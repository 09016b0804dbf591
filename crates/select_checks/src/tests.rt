use crate::{SelectEnd, check_expectations, check_stream_select, check_view_select};
use sql_tree::{Out, Select, SqlAction, SqlExpr, SqlItem, SqlOp, SqlOrigin};
use sqlite_items::{Boxed, Items};
use statement_checks::CheckFault;
use std::alloc::{AllocError, Global};
use std::test::Fail;
use value_core::{Column, Kind, ListOf, Name, Schema};

// ---- expressions

/// A written expression, or none for want of memory.
type Tree = Result<Boxed<SqlExpr>, AllocError>;

fn number(alloc: Global, number: i64) -> Tree {
    Boxed::new(alloc, SqlExpr::Number(number))
}

fn null(alloc: Global) -> Tree {
    Boxed::new(alloc, SqlExpr::Null)
}

fn name(alloc: Global, name: &str) -> Tree {
    let name = Name::new(alloc, name)?;
    Boxed::new(alloc, SqlExpr::Name(name))
}

fn sum(alloc: Global, operand: Tree) -> Tree {
    Boxed::new(alloc, SqlExpr::Sum(operand?))
}

fn plus(alloc: Global, left: Tree, right: Tree) -> Tree {
    let left = left?;
    let right = right?;
    let op = SqlOp::Add;
    Boxed::new(alloc, SqlExpr::Binary { op, left, right })
}

// ---- selects

/// Outputs, or none for want of memory.
type Outputs = Result<Vec<Out>, AllocError>;

fn none(alloc: Global) -> Outputs {
    Ok(Vec::new(alloc))
}

fn star(alloc: Global, outs: Outputs) -> Outputs {
    let mut outs = outs?;
    let except = ListOf::new(alloc);
    outs.push(Out::Star { except })?;
    Ok(outs)
}

fn unnamed(outs: Outputs, tree: Tree) -> Outputs {
    let mut outs = outs?;
    let expr = tree?.into_inner();
    outs.push(Out::One { expr, name: None })?;
    Ok(outs)
}

fn named(alloc: Global, outs: Outputs, tree: Tree, name: &str) -> Outputs {
    let mut outs = outs?;
    let expr = tree?.into_inner();
    let name = Some(Name::new(alloc, name)?);
    outs.push(Out::One { expr, name })?;
    Ok(outs)
}

fn groups(alloc: Global, group: Option<Tree>) -> Result<Items<SqlExpr>, AllocError> {
    let mut groups = Items::new(alloc);
    if let Some(tree) = group {
        groups.push(tree?.into_inner())?;
    }
    Ok(groups)
}

fn origin(alloc: Global) -> Result<SqlOrigin, AllocError> {
    let name = Name::new(alloc, "source")?;
    Ok(SqlOrigin::Table { stream: true, name })
}

fn select_of(outs: Vec<Out>, origin: SqlOrigin, groups: Items<SqlExpr>) -> Select {
    Select {
        outs: Items::from_vec(outs),
        origin,
        filter: None,
        groups,
    }
}

fn select(alloc: Global, outs: Outputs, group: Option<Tree>) -> Result<Boxed<Select>, AllocError> {
    let origin = origin(alloc)?;
    let groups = groups(alloc, group)?;
    Boxed::new(alloc, select_of(outs?, origin, groups))
}

fn add_column(
    alloc: Global,
    schema: &mut Schema,
    name: &str,
    kind: Kind,
) -> Result<(), AllocError> {
    let name = Name::new(alloc, name)?;
    schema.push(Column { name, kind })
}

// `Id INT, city STRING`
fn source(alloc: Global) -> Result<Schema, AllocError> {
    let mut schema = ListOf::new(alloc);
    add_column(alloc, &mut schema, "Id", Kind::Int)?;
    add_column(alloc, &mut schema, "city", Kind::Str)?;
    Ok(schema)
}

// ---- what is answered

#[derive(Clone, Copy, PartialEq, Eq, Debug)]
enum Found {
    Given(usize),
    Duplicate,
    UnknownName,
    Aggregate,
    Mismatch,
    NotGrouped(u32),
    NoName(u32),
    Other,
}

fn found_in(fault: CheckFault) -> Found {
    match fault {
        CheckFault::Duplicate { name: _ } => Found::Duplicate,
        CheckFault::UnknownName { name: _ } => Found::UnknownName,
        CheckFault::AggregateInStream => Found::Aggregate,
        CheckFault::TypeMismatch => Found::Mismatch,
        CheckFault::NotGrouped { item } => Found::NotGrouped(item),
        CheckFault::NoName { item } => Found::NoName(item),
        _ => Found::Other,
    }
}

fn ended(end: SelectEnd) -> Found {
    match end {
        SelectEnd::Fault(fault) => found_in(fault),
        SelectEnd::Memory => Found::Other,
    }
}

fn stream(alloc: Global, outs: Outputs) -> Result<Found, AllocError> {
    let select = select(alloc, outs, None)?;
    let source = source(alloc)?;
    Ok(match check_stream_select(alloc, select.get(), &source) {
        Ok(given) => Found::Given(given.columns.len()),
        Err(end) => ended(end),
    })
}

fn view(alloc: Global, outs: Outputs, group: Option<Tree>) -> Result<Found, AllocError> {
    let select = select(alloc, outs, group)?;
    let source = source(alloc)?;
    Ok(match check_view_select(alloc, select.get(), &source) {
        Ok(given) => Found::Given(given.items.len()),
        Err(end) => ended(end),
    })
}

fn expected(alloc: Global, test: Tree) -> Result<Found, AllocError> {
    let name = Name::new(alloc, "ok")?;
    let test = test?.into_inner();
    let action = SqlAction::Warn;
    let mut items = Items::new(alloc);
    items.push(SqlItem::Expect { name, test, action })?;
    let source = source(alloc)?;
    Ok(match check_expectations(alloc, &items, &source) {
        Ok(given) => Found::Given(given.len()),
        Err(end) => ended(end),
    })
}

#[test]
fn faults_of_streams_in_order(rt: HostRuntime) -> Result<(), Fail> {
    let m = rt.alloc();
    assert!(rt; stream(m, star(m, none(m)))? == Found::Given(2));
    assert!(rt; stream(m, unnamed(none(m), sum(m, name(m, "x"))))? == Found::Aggregate);
    assert!(rt;
        stream(m, named(m, unnamed(none(m), null(m)), name(m, "x"), "y"))? == Found::UnknownName
    );
    assert!(rt;
        stream(m, named(m, unnamed(none(m), number(m, 1)), null(m), "y"))? == Found::Mismatch
    );
    assert!(rt; stream(m, unnamed(star(m, star(m, none(m))), number(m, 1)))? == Found::NoName(3));
    assert!(rt; stream(m, named(m, star(m, none(m)), number(m, 1), "ID"))? == Found::Duplicate);
    Ok(())
}

#[test]
fn faults_of_views_in_order(rt: HostRuntime) -> Result<(), Fail> {
    let m = rt.alloc();
    let group = Some(plus(m, name(m, "id"), number(m, 1)));
    let same = plus(m, name(m, "ID"), number(m, 1));
    let total = sum(m, name(m, "Id"));
    assert!(rt;
        view(m, named(m, named(m, none(m), same, "k"), total, "s"), group)? == Found::Given(2)
    );
    let text = sum(m, name(m, "city"));
    assert!(rt; view(m, named(m, star(m, none(m)), text, "s"), None)? == Found::Mismatch);
    assert!(rt;
        view(m, star(m, unnamed(none(m), sum(m, name(m, "id")))), None)? == Found::NotGrouped(2)
    );
    assert!(rt; view(m, unnamed(none(m), sum(m, name(m, "id"))), None)? == Found::NoName(1));
    Ok(())
}

#[test]
fn faults_of_expectations(rt: HostRuntime) -> Result<(), Fail> {
    let m = rt.alloc();
    let test = SqlExpr::IsNull {
        expr: name(m, "CITY")?,
        negated: true,
    };
    assert!(rt; expected(m, Boxed::new(m, test))? == Found::Given(1));
    assert!(rt; expected(m, plus(m, name(m, "city"), name(m, "x")))? == Found::UnknownName);
    assert!(rt; expected(m, null(m))? == Found::Mismatch);
    Ok(())
}
