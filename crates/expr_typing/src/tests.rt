use crate::{TypeEnd, first_unknown, typed};
use row_expr::{RowFault, eval};
use sql_tree::{SqlArm, SqlExpr, SqlOp, SqlType};
use sqlite_items::{Boxed, Items};
use std::alloc::{AllocError, Global};
use std::test::Fail;
use value_core::{Column, Kind, ListOf, Name, Row, Schema, Text, Value};

/// A written expression, or none for want of memory.
type Tree = Result<Boxed<SqlExpr>, AllocError>;

fn number(alloc: Global, number: i64) -> Tree {
    Boxed::new(alloc, SqlExpr::Number(number))
}

fn truth(alloc: Global, truth: bool) -> Tree {
    Boxed::new(alloc, SqlExpr::Bool(truth))
}

fn null(alloc: Global) -> Tree {
    Boxed::new(alloc, SqlExpr::Null)
}

fn text(alloc: Global, text: &str) -> Tree {
    let text = Text::new(alloc, text)?;
    Boxed::new(alloc, SqlExpr::Str(text))
}

fn name(alloc: Global, name: &str) -> Tree {
    let name = Name::new(alloc, name)?;
    Boxed::new(alloc, SqlExpr::Name(name))
}

fn negative(alloc: Global, operand: Tree) -> Tree {
    Boxed::new(alloc, SqlExpr::Neg(operand?))
}

fn of(alloc: Global, left: Tree, op: SqlOp, right: Tree) -> Tree {
    let left = left?;
    let right = right?;
    Boxed::new(alloc, SqlExpr::Binary { op, left, right })
}

fn is_null(alloc: Global, operand: Tree) -> Tree {
    let expr = operand?;
    let negated = false;
    Boxed::new(alloc, SqlExpr::IsNull { expr, negated })
}

fn cast(alloc: Global, operand: Tree, kind: SqlType, trying: bool) -> Tree {
    let expr = operand?;
    Boxed::new(alloc, SqlExpr::Cast { expr, kind, trying })
}

fn list_of(alloc: Global, first: Tree, second: Tree) -> Result<Items<SqlExpr>, AllocError> {
    let mut list = Items::new(alloc);
    list.push(first?.into_inner())?;
    list.push(second?.into_inner())?;
    Ok(list)
}

fn among(alloc: Global, operand: Tree, first: Tree, second: Tree) -> Tree {
    let expr = operand?;
    let list = list_of(alloc, first, second)?;
    let negated = false;
    Boxed::new(
        alloc,
        SqlExpr::InList {
            expr,
            list,
            negated,
        },
    )
}

fn coalesce(alloc: Global, first: Tree, second: Tree) -> Tree {
    let list = list_of(alloc, first, second)?;
    Boxed::new(alloc, SqlExpr::Coalesce(list))
}

fn arm(alloc: Global, when: Tree, gives: Tree) -> Result<Items<SqlArm>, AllocError> {
    let when = when?;
    let gives = gives?;
    let mut arms = Items::new(alloc);
    arms.push(SqlArm {
        when: when.into_inner(),
        then: gives.into_inner(),
    })?;
    Ok(arms)
}

/// `CASE WHEN when THEN gives ELSE other END`
fn case(alloc: Global, when: Tree, gives: Tree, other: Tree) -> Tree {
    let arms = arm(alloc, when, gives)?;
    let other = Some(other?);
    Boxed::new(alloc, SqlExpr::Case { arms, other })
}

/// The columns of `a BIGINT`.
fn column_a(alloc: Global) -> Result<Schema, AllocError> {
    let mut columns: Schema = ListOf::new(alloc);
    let name = Name::new(alloc, "a")?;
    columns.push(Column {
        name,
        kind: Kind::Big,
    })?;
    Ok(columns)
}

fn typed_value(alloc: Global, tree: Tree) -> Option<Result<Value, RowFault>> {
    let tree = tree.ok()?;
    let columns: Schema = ListOf::new(alloc);
    let row: Row = ListOf::new(alloc);
    let expr = typed(alloc, tree.get(), &columns).ok()?;
    Some(eval(alloc, &expr, &row))
}

/// Whether an expression without names is typed, and has that value.
fn gives(alloc: Global, tree: Tree, wanted: Value) -> bool {
    match typed_value(alloc, tree) {
        Some(Ok(value)) => value == wanted,
        _ => false,
    }
}

fn faults(alloc: Global, tree: Tree, wanted: RowFault) -> bool {
    match typed_value(alloc, tree) {
        Some(Err(fault)) => fault == wanted,
        _ => false,
    }
}

/// Whether an expression over `a` is typed, and is of that kind.
fn is_of(alloc: Global, tree: Tree, wanted: Kind) -> bool {
    match (tree, column_a(alloc)) {
        (Ok(tree), Ok(columns)) => match typed(alloc, tree.get(), &columns) {
            Ok(expr) => expr.kind() == Some(wanted),
            Err(_) => false,
        },
        _ => false,
    }
}

/// Whether the kinds of an expression over `a` don't meet.
fn differs(alloc: Global, tree: Tree) -> bool {
    match (tree, column_a(alloc)) {
        (Ok(tree), Ok(columns)) => {
            matches!(
                typed(alloc, tree.get(), &columns),
                Err(TypeEnd::TypeMismatch)
            )
        }
        _ => false,
    }
}

/// Whether that name is the first of an expression that isn't `a`.
fn lacks(alloc: Global, tree: Tree, wanted: &str) -> bool {
    match (tree, column_a(alloc)) {
        (Ok(tree), Ok(columns)) => match typed(alloc, tree.get(), &columns) {
            Err(TypeEnd::UnknownName { name }) => name.as_str() == wanted,
            _ => false,
        },
        _ => false,
    }
}

#[test]
fn numbers_are_calculated(rt: HostRuntime) -> Result<(), Fail> {
    let m = rt.alloc();
    assert!(rt;
        gives(
            m,
            of(m, number(m, 7), SqlOp::Div, number(m, 2)),
            Value::Big(3)
        )
    );
    assert!(rt;
        gives(
            m,
            of(m, number(m, -7), SqlOp::Div, number(m, 2)),
            Value::Big(-3)
        )
    );
    assert!(rt;
        gives(
            m,
            of(m, number(m, -7), SqlOp::Rem, number(m, 2)),
            Value::Int(-1)
        )
    );
    assert!(rt;
        faults(
            m,
            of(m, number(m, 1), SqlOp::Div, number(m, 0)),
            RowFault::ZeroDivisor
        )
    );
    assert!(rt;
        faults(
            m,
            of(m, number(m, 1), SqlOp::Rem, number(m, 0)),
            RowFault::ZeroDivisor
        )
    );
    assert!(rt; gives(m, of(m, null(m), SqlOp::Sub, number(m, 1)), Value::Null));
    assert!(rt; gives(m, of(m, number(m, 1), SqlOp::Mul, null(m)), Value::Null));
    Ok(())
}

#[test]
fn numbers_have_edges(rt: HostRuntime) -> Result<(), Fail> {
    let m = rt.alloc();
    let most = 2147483647;
    assert!(rt;
        faults(
            m,
            of(m, number(m, most), SqlOp::Add, number(m, 1)),
            RowFault::Overflow
        )
    );
    assert!(rt;
        gives(
            m,
            of(m, number(m, most + 1), SqlOp::Add, number(m, 1)),
            Value::Big(2147483649)
        )
    );
    assert!(rt; faults(m, negative(m, number(m, -2147483648)), RowFault::Overflow));
    assert!(rt;
        gives(
            m,
            negative(m, number(m, -2147483649)),
            Value::Big(2147483649)
        )
    );
    assert!(rt;
        faults(
            m,
            of(m, number(m, i64::MIN), SqlOp::Div, number(m, -1)),
            RowFault::Overflow
        )
    );
    assert!(rt;
        gives(
            m,
            of(m, number(m, i64::MIN), SqlOp::Rem, number(m, -1)),
            Value::Big(0)
        )
    );
    assert!(rt;
        faults(
            m,
            of(m, number(m, i64::MAX), SqlOp::Add, number(m, 1)),
            RowFault::Overflow
        )
    );
    Ok(())
}

#[test]
fn texts_are_cast(rt: HostRuntime) -> Result<(), Fail> {
    let m = rt.alloc();
    assert!(rt;
        gives(
            m,
            cast(m, text(m, " 12 "), SqlType::Int, false),
            Value::Int(12)
        )
    );
    assert!(rt;
        faults(
            m,
            cast(m, text(m, "12x"), SqlType::Int, false),
            RowFault::BadCast
        )
    );
    assert!(rt; gives(m, cast(m, text(m, "12x"), SqlType::Int, true), Value::Null));
    assert!(rt;
        gives(
            m,
            cast(m, text(m, "Yes"), SqlType::Bool, false),
            Value::Bool(true)
        )
    );
    assert!(rt; gives(m, cast(m, text(m, "on"), SqlType::Bool, true), Value::Null));
    assert!(rt;
        faults(
            m,
            cast(m, text(m, "１２"), SqlType::Int, false),
            RowFault::BadCast
        )
    );
    Ok(())
}

#[test]
fn truth_has_three_values(rt: HostRuntime) -> Result<(), Fail> {
    let m = rt.alloc();
    let fault = of(m, number(m, 1), SqlOp::Div, number(m, 0));
    let not_reached = of(m, fault, SqlOp::Eq, number(m, 1));
    assert!(rt;
        gives(
            m,
            of(m, truth(m, false), SqlOp::And, not_reached),
            Value::Bool(false)
        )
    );
    let unknown = cast(m, null(m), SqlType::Bool, false);
    assert!(rt;
        gives(
            m,
            of(m, unknown, SqlOp::And, truth(m, false)),
            Value::Bool(false)
        )
    );
    assert!(rt; gives(m, of(m, null(m), SqlOp::Or, truth(m, false)), Value::Null));
    assert!(rt;
        gives(
            m,
            among(m, number(m, 2), number(m, 1), null(m)),
            Value::Null
        )
    );
    assert!(rt;
        gives(
            m,
            among(m, number(m, 1), number(m, 1), null(m)),
            Value::Bool(true)
        )
    );
    assert!(rt;
        gives(
            m,
            of(m, text(m, "é"), SqlOp::Gt, text(m, "z")),
            Value::Bool(true)
        )
    );
    assert!(rt; gives(m, is_null(m, text(m, "")), Value::Bool(false)));
    Ok(())
}

#[test]
fn operands_are_widened_to_their_join(rt: HostRuntime) -> Result<(), Fail> {
    let m = rt.alloc();
    assert!(rt; is_of(m, of(m, number(m, 1), SqlOp::Add, number(m, 1)), Kind::Int));
    assert!(rt; is_of(m, of(m, number(m, 1), SqlOp::Add, name(m, "A")), Kind::Big));
    assert!(rt; is_of(m, of(m, number(m, 1), SqlOp::Div, number(m, 1)), Kind::Big));
    assert!(rt; is_of(m, of(m, name(m, "a"), SqlOp::Lt, number(m, 1)), Kind::Bool));
    assert!(rt; is_of(m, of(m, null(m), SqlOp::Concat, text(m, "b")), Kind::Str));
    assert!(rt; is_of(m, case(m, null(m), number(m, 1), name(m, "a")), Kind::Big));
    assert!(rt; is_of(m, coalesce(m, null(m), number(m, 1)), Kind::Int));
    Ok(())
}

#[test]
fn kinds_must_meet(rt: HostRuntime) -> Result<(), Fail> {
    let m = rt.alloc();
    assert!(rt; differs(m, of(m, null(m), SqlOp::Add, null(m))));
    assert!(rt; differs(m, of(m, text(m, "1"), SqlOp::Add, number(m, 1))));
    assert!(rt; differs(m, of(m, number(m, 1), SqlOp::Concat, number(m, 1))));
    assert!(rt; differs(m, of(m, truth(m, true), SqlOp::And, number(m, 1))));
    assert!(rt; differs(m, among(m, null(m), null(m), null(m))));
    assert!(rt; differs(m, case(m, truth(m, true), null(m), null(m))));
    assert!(rt; differs(m, coalesce(m, number(m, 1), text(m, "1"))));
    assert!(rt; differs(m, Boxed::new(m, SqlExpr::CountAll)));
    Ok(())
}

#[test]
fn unknown_names_are_told_first(rt: HostRuntime) -> Result<(), Fail> {
    let m = rt.alloc();
    let mismatch = of(m, text(m, "1"), SqlOp::Add, number(m, 1));
    assert!(rt; lacks(m, of(m, mismatch, SqlOp::Eq, name(m, "b")), "b"));
    assert!(rt; lacks(m, of(m, name(m, "c"), SqlOp::Eq, name(m, "b")), "c"));
    assert!(rt; lacks(m, case(m, name(m, "a"), name(m, "B"), name(m, "c")), "B"));
    assert!(rt; lacks(m, coalesce(m, name(m, "a"), name(m, "é")), "é"));
    Ok(())
}
