use crate::{Arithmetic, Arm, Comparison, Expr, RowFault, Sort, eval};
use sqlite_items::{Boxed, Items};
use std::alloc::{AllocError, Global};
use std::test::Fail;
use value_core::{Kind, ListOf, Row, Value};

fn crosses_threads<T: Send + Sync>() {}

#[test]
fn expressions_cross_threads() {
    crosses_threads::<Expr>();
    crosses_threads::<Arm>();
    crosses_threads::<Sort>();
    crosses_threads::<RowFault>();
}

/// An expression, or none for want of memory.
type Made = Result<Boxed<Expr>, AllocError>;

fn int(alloc: Global, number: i32) -> Made {
    Boxed::new(alloc, Expr::Literal(Value::Int(number)))
}

fn column(alloc: Global, at: usize, kind: Kind) -> Made {
    Boxed::new(alloc, Expr::Column(at, kind))
}

fn of(alloc: Global, by: Arithmetic, left: Made, right: Made) -> Made {
    Boxed::new(alloc, Expr::Arithmetic(by, left?, right?))
}

fn is_below(alloc: Global, left: Made, right: Made) -> Made {
    Boxed::new(alloc, Expr::Compare(Comparison::Lt, left?, right?))
}

fn widen(alloc: Global, operand: Made) -> Made {
    Boxed::new(alloc, Expr::Widen(operand?))
}

/// `coalesce(column, 1)`
fn known_or_one(alloc: Global, operand: Made) -> Made {
    let operand = operand?;
    let mut operands = Items::new(alloc);
    operands.push(operand.into_inner())?;
    operands.push(Expr::Literal(Value::Int(1)))?;
    Boxed::new(alloc, Expr::Coalesce(operands))
}

/// Whether the expression has that value on the row `(7, NULL)`, and that kind.
fn gives(alloc: Global, expr: Made, wanted: Value, kind: Kind) -> bool {
    let mut row: Row = ListOf::new(alloc);
    let pushed = row.push(Value::Int(7)).is_ok() && row.push(Value::Null).is_ok();
    match expr {
        Ok(expr) => match eval(alloc, expr.get(), &row) {
            Ok(value) => pushed && value == wanted && expr.get().kind() == Some(kind),
            Err(_) => false,
        },
        Err(AllocError) => false,
    }
}

#[test]
fn expressions_have_a_value_and_a_kind(rt: HostRuntime) -> Result<(), Fail> {
    let m = rt.alloc();
    let seven = column(m, 0, Kind::Int);
    let quotient = of(m, Arithmetic::Div, seven, int(m, 2));
    assert!(rt; gives(m, quotient, Value::Big(3), Kind::Big));
    let below = is_below(m, column(m, 0, Kind::Int), int(m, 8));
    assert!(rt; gives(m, below, Value::Bool(true), Kind::Bool));
    let wide = widen(m, column(m, 0, Kind::Int));
    assert!(rt; gives(m, wide, Value::Big(7), Kind::Big));
    let known = known_or_one(m, column(m, 1, Kind::Int));
    assert!(rt; gives(m, known, Value::Int(1), Kind::Int));
    Ok(())
}
