ghost use Rattle.std.specs.Prelude.{◌≡◌, false, Ok, map, slice_index_or};
ghost use Rattle.row_expr.specs.Eval.{Answers, val};
ghost use Rattle.row_expr.specs.Eval as spec;

use crate::expr::Expr;
use crate::fault::RowFault;
use crate::operators::{
    calculate, cast, compare, copied, is_met, join, negate, opposite, try_cast, widen, within,
};
use std::alloc::Global;
use value_core::{Row, Value};

/// The value of an expression on a row (Databricks SQL reference, operators and `cast`, under ANSI
/// rules). Operands are evaluated from left to right, and AND, OR, IN, CASE and `coalesce` stop
/// where the rest can't matter. Overflow, ZeroDivisor and BadCast come exactly where the value is
/// that fault; Memory where none is found. A column that isn't there is NULL.
#[cycle(eval)]
pub fn eval(alloc: Global, e: &Expr, row: &Row) -> Result<Value, RowFault>
    ensures { Answers (val e.now row.now) result }
{
    match e {
        Expr::Literal(value) => copied(alloc, value),
        Expr::Column(at, _) => column(alloc, row, *at),
        Expr::Widen(a) => Ok(widen(eval(alloc, a.get(), row)?)),
        Expr::Negate(a) => negate(eval(alloc, a.get(), row)?),
        Expr::Arithmetic(op, a, b) => {
            let left = eval(alloc, a.get(), row)?;
            calculate(*op, &left, &eval(alloc, b.get(), row)?)
        }
        Expr::Concat(a, b) => {
            let left = eval(alloc, a.get(), row)?;
            join(alloc, &left, &eval(alloc, b.get(), row)?)
        }
        Expr::Compare(op, a, b) => {
            let left = eval(alloc, a.get(), row)?;
            Ok(compare(*op, &left, &eval(alloc, b.get(), row)?))
        }
        Expr::And(a, b) => conjunction(alloc, eval(alloc, a.get(), row)?, b.get(), row),
        Expr::Or(a, b) => disjunction(alloc, eval(alloc, a.get(), row)?, b.get(), row),
        Expr::Not(a) => Ok(opposite(eval(alloc, a.get(), row)?)),
        Expr::IsNull(a) => Ok(Value::Bool(eval(alloc, a.get(), row)?.is_null())),
        Expr::InList(a, elements) => {
            listed(alloc, eval(alloc, a.get(), row)?, elements.as_slice(), row)
        }
        Expr::Between(a, low, high) => {
            let value = eval(alloc, a.get(), row)?;
            let low = eval(alloc, low.get(), row)?;
            let high = eval(alloc, high.get(), row)?;
            Ok(within(&value, &low, &high))
        }
        Expr::Case(arms, other) => {
            for arm in arms.as_slice() {
                if eval(alloc, &arm.when, row)?.is_true() {
                    return eval(alloc, &arm.gives, row);
                }
            }
            eval(alloc, other.get(), row)
        }
        Expr::Cast(a, to) => cast(alloc, eval(alloc, a.get(), row)?, *to),
        Expr::TryCast(a, to) => try_cast(alloc, eval(alloc, a.get(), row)?, *to),
        Expr::Coalesce(operands) => first_known(alloc, operands.as_slice(), row),
    }
}

/// `left AND b`: false at the first operand that is false, and then `b` isn't evaluated.
#[cycle(eval)]
fn conjunction(alloc: Global, left: Value, b: &Expr, row: &Row) -> Result<Value, RowFault>
    ensures { Answers (spec.conjunction (Ok left) (val b.now row.now)) result }
{
    if left.is_false() {
        return Ok(Value::Bool(false));
    }
    let right = eval(alloc, b, row)?;
    Ok(is_met(&left, &right))
}

/// `left OR b`: true at the first operand that is true, and then `b` isn't evaluated.
#[cycle(eval)]
fn disjunction(alloc: Global, left: Value, b: &Expr, row: &Row) -> Result<Value, RowFault>
    ensures { Answers (spec.disjunction (Ok left) (val b.now row.now)) result }
{
    let left = opposite(left);
    if left.is_false() {
        return Ok(Value::Bool(true));
    }
    let right = opposite(eval(alloc, b, row)?);
    Ok(opposite(is_met(&left, &right)))
}

/// `value IN (elements)`: NULL of NULL, and then no element is evaluated.
#[cycle(eval)]
fn listed(alloc: Global, value: Value, elements: &[Expr], row: &Row) -> Result<Value, RowFault>
    ensures { Answers (spec.listed (Ok value) (spec.outcomes row.now (map val elements.now))) result }
{
    if value.is_null() {
        return Ok(Value::Null);
    }
    among(alloc, &value, elements, row)
}

/// TRUE at the first element that is equal, and then the rest isn't evaluated; else NULL where one
/// was NULL, else FALSE.
#[cycle(eval)]
fn among(alloc: Global, value: &Value, elements: &[Expr], row: &Row) -> Result<Value, RowFault>
    ensures { Answers (spec.among value.now false (spec.outcomes row.now (map val elements.now))) result }
{
    let mut met_null = false;
    for element in elements {
        let item = eval(alloc, element, row)?;
        if item.is_null() {
            met_null = true;
        } else if *value == item {
            return Ok(Value::Bool(true));
        }
    }
    if met_null {
        Ok(Value::Null)
    } else {
        Ok(Value::Bool(false))
    }
}

/// The first value that isn't NULL, and then the rest isn't evaluated; else NULL.
#[cycle(eval)]
fn first_known(alloc: Global, operands: &[Expr], row: &Row) -> Result<Value, RowFault>
    ensures { Answers (spec.first_known (spec.outcomes row.now (map val operands.now))) result }
{
    for operand in operands {
        let value = eval(alloc, operand, row)?;
        if !value.is_null() {
            return Ok(value);
        }
    }
    Ok(Value::Null)
}

fn column(alloc: Global, row: &Row, at: usize) -> Result<Value, RowFault>
    ensures { Answers (Ok (slice_index_or row.now at Value.Null)) result }
{
    match row.as_slice().get(at) {
        Some(value) => copied(alloc, value),
        None => Ok(Value::Null),
    }
}
