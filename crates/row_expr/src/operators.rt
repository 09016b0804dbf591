ghost use Rattle.std.specs.Prelude.{◌≡◌, ◌*ℤ◌, int_div, int_rem, IfOk, Ok};
ghost use Rattle.row_expr.specs.Eval.{Answers, both};
ghost use Rattle.row_expr.specs.Eval as spec;

use crate::expr::{Arithmetic, Comparison};
use crate::fault::RowFault;
use std::alloc::{AllocError, Global};
use std::cmp::Ordering;
use value_core::{Kind, Text, Value};

/// An equal value, or Memory.
pub fn copied(alloc: Global, value: &Value) -> Result<Value, RowFault>
    ensures { Answers (Ok value.now) result }
{
    match value.copy(alloc) {
        Ok(copy) => Ok(copy),
        Err(AllocError) => Err(RowFault::Memory),
    }
}

/// An INT as the BIGINT of the same number; any other value as it is.
pub fn widen(value: Value) -> Value
    ensures { Ok result ≡ spec.widened value }
{
    match value {
        Value::Int(number) => Value::Big(number as i64),
        other => other,
    }
}

fn as_int(number: i128) -> Result<Value, RowFault>
    ensures { Answers (spec.as_int number) result }
{
    match i32::try_from(number) {
        Ok(number) => Ok(Value::Int(number)),
        Err(_) => Err(RowFault::Overflow),
    }
}

fn as_big(number: i128) -> Result<Value, RowFault>
    ensures { Answers (spec.as_big number) result }
{
    match i64::try_from(number) {
        Ok(number) => Ok(Value::Big(number)),
        Err(_) => Err(RowFault::Overflow),
    }
}

/// NOT: NULL of NULL.
pub fn opposite(value: Value) -> Value
    ensures { Ok result ≡ spec.opposite value }
{
    match value {
        Value::Bool(truth) => Value::Bool(!truth),
        _ => Value::Null,
    }
}

/// The AND of two truths of which the left one is not false.
pub fn is_met(left: &Value, right: &Value) -> Value
    ensures { result ≡ spec.met left.now right.now }
{
    if right.is_false() {
        Value::Bool(false)
    } else if left.is_null() || right.is_null() {
        Value::Null
    } else {
        Value::Bool(true)
    }
}

fn holds(op: Comparison, order: Ordering) -> bool
    ensures { result ≡ spec.holds op order }
{
    match op {
        Comparison::Eq => order.is_eq(),
        Comparison::Ne => !order.is_eq(),
        Comparison::Lt => order.is_lt(),
        Comparison::Le => !order.is_gt(),
        Comparison::Gt => order.is_gt(),
        Comparison::Ge => !order.is_lt(),
    }
}

/// A comparison in the order of values; NULL where an operand is.
pub fn compare(op: Comparison, left: &Value, right: &Value) -> Value
    ensures { Ok result ≡ both (spec.compared op) (Ok left.now) (Ok right.now) }
{
    if left.is_null() || right.is_null() {
        return Value::Null;
    }
    Value::Bool(holds(op, left.cmp(right)))
}

/// `value >= low AND value <= high`.
pub fn within(value: &Value, low: &Value, high: &Value) -> Value
    ensures { Ok result ≡ spec.within (Ok value.now) (Ok low.now) (Ok high.now) }
{
    let above = compare(Comparison::Ge, value, low);
    if above.is_false() {
        return Value::Bool(false);
    }
    let below = compare(Comparison::Le, value, high);
    is_met(&above, &below)
}

/// `||`; NULL where an operand is.
pub fn join(alloc: Global, left: &Value, right: &Value) -> Result<Value, RowFault>
    ensures { Answers (both spec.joined (Ok left.now) (Ok right.now)) result }
{
    match (left, right) {
        (Value::Str(a), Value::Str(b)) => match a.joined(alloc, b) {
            Ok(text) => Ok(Value::Str(text)),
            Err(AllocError) => Err(RowFault::Memory),
        },
        _ => Ok(Value::Null),
    }
}

/// The unary `-`, which overflows at the least number of a kind.
pub fn negate(value: Value) -> Result<Value, RowFault>
    ensures { Answers (spec.negated value) result }
{
    match value {
        Value::Null => Ok(Value::Null),
        Value::Int(number) => as_int(-(number as i128)),
        Value::Big(number) => as_big(-(number as i128)),
        _ => as_big(0),
    }
}

/// The number of an INT or a BIGINT.
fn number_of(value: &Value) -> i64
    ensures { result ≡ spec.number_of value.now }
{
    match value {
        Value::Int(number) => *number as i64,
        Value::Big(number) => *number,
        _ => 0,
    }
}

fn as_kind_of(value: &Value, number: i128) -> Result<Value, RowFault>
    ensures { Answers (spec.as_kind_of value.now number) result }
{
    match value {
        Value::Int(_) => as_int(number),
        _ => as_big(number),
    }
}

fn product(kind: &Value, a: i64, b: i64) -> Result<Value, RowFault>
    ensures { Answers (spec.as_kind_of kind.now (a *ℤ b)) result }
{
    match a.checked_mul(b) {
        Some(number) => as_kind_of(kind, number as i128),
        None => Err(RowFault::Overflow),
    }
}

fn quotient(a: i64, b: i64) -> Result<Value, RowFault>
    ensures { Answers (spec.unless_zero b (spec.as_big (int_div a b))) result }
{
    if b == 0 {
        return Err(RowFault::ZeroDivisor);
    }
    match a.checked_div(b) {
        Some(number) => Ok(Value::Big(number)),
        None => Err(RowFault::Overflow),
    }
}

fn remainder(kind: &Value, a: i64, b: i64) -> Result<Value, RowFault>
    ensures { Answers (spec.unless_zero b (spec.as_kind_of kind.now (int_rem a b))) result }
{
    if b == 0 {
        return Err(RowFault::ZeroDivisor);
    }
    as_kind_of(kind, a.wrapping_rem(b) as i128)
}

fn calculate_known(op: Arithmetic, left: &Value, right: &Value) -> Result<Value, RowFault>
    ensures { Answers (spec.calculated op left.now right.now) result }
{
    let a = number_of(left);
    let b = number_of(right);
    match op {
        Arithmetic::Add => as_kind_of(left, a as i128 + b as i128),
        Arithmetic::Sub => as_kind_of(left, a as i128 - b as i128),
        Arithmetic::Mul => product(left, a, b),
        Arithmetic::Div => quotient(a, b),
        Arithmetic::Rem => remainder(left, a, b),
    }
}

/// `+`, `-`, `*`, `div` or `%`; NULL where an operand is.
pub fn calculate(op: Arithmetic, left: &Value, right: &Value) -> Result<Value, RowFault>
    ensures { Answers (both (spec.calculated op) (Ok left.now) (Ok right.now)) result }
{
    if left.is_null() || right.is_null() {
        return Ok(Value::Null);
    }
    calculate_known(op, left, right)
}

fn text_of(alloc: Global, value: &Value) -> Result<Text, AllocError>
    ensures { IfOk result (λ text. text ≡ spec.text_of value.now) }
{
    match value {
        Value::Null => Text::new(alloc, ""),
        Value::Bool(true) => Text::new(alloc, "true"),
        Value::Bool(false) => Text::new(alloc, "false"),
        Value::Int(number) => Ok(Text::from_string(number.to_string(alloc)?)),
        Value::Big(number) => Ok(Text::from_string(number.to_string(alloc)?)),
        Value::Str(text) => Text::new(alloc, text.as_str()),
    }
}

fn as_number(value: &Value) -> i64
    ensures { result ≡ spec.as_number value.now }
{
    match value {
        Value::Bool(true) => 1,
        Value::Bool(false) => 0,
        other => number_of(other),
    }
}

fn cast_number(alloc: Global, value: &Value, to: Kind) -> Result<Value, RowFault>
    ensures { Answers (spec.cast_number to value.now) result }
{
    match to {
        Kind::Str => match text_of(alloc, value) {
            Ok(text) => Ok(Value::Str(text)),
            Err(AllocError) => Err(RowFault::Memory),
        },
        Kind::Bool => Ok(Value::Bool(as_number(value) != 0)),
        Kind::Int => match i32::try_from(as_number(value)) {
            Ok(number) => Ok(Value::Int(number)),
            Err(_) => Err(RowFault::BadCast),
        },
        Kind::Big => Ok(Value::Big(as_number(value))),
    }
}

/// CAST: NULL stays NULL, a text is read, and a number or a boolean is taken for the other.
pub fn cast(alloc: Global, value: Value, to: Kind) -> Result<Value, RowFault>
    ensures { Answers (spec.cast to value) result }
{
    match &value {
        Value::Null => Ok(Value::Null),
        Value::Str(text) => match Value::from_text(alloc, text.as_str(), to) {
            Ok(Some(read)) => Ok(read),
            Ok(None) => Err(RowFault::BadCast),
            Err(AllocError) => Err(RowFault::Memory),
        },
        other => cast_number(alloc, other, to),
    }
}

/// TRY_CAST: NULL in place of the conversion's own BadCast.
pub fn try_cast(alloc: Global, value: Value, to: Kind) -> Result<Value, RowFault>
    ensures { Answers (spec.null_for_bad_cast (spec.cast to value)) result }
{
    match cast(alloc, value, to) {
        Err(RowFault::BadCast) => Ok(Value::Null),
        other => other,
    }
}
