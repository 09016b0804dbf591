//! What tokens are to an expression: how tightly they bind, which operator and which function they are.

ghost use Rattle.std.specs.Prelude.{◌≡◌, ◌≤◌, ◌^◌};
ghost use Rattle.sql_expr.specs.Operators as spec;

use sql_phrases::Reader;
use sql_tree::{LexemeKind, SqlOp};

/// A function that a bare word names where a parenthesis follows.
#[derive(Clone, Copy, Debug, PartialEq, Eq)]
pub enum Function {
    Coalesce,
    Count,
    Sum,
    Min,
    Max,
}

/// How tightly a token binds as an operator: 1 OR, 2 AND, 5 what makes a test, 6 sums, 7 products, 9 a
/// parenthesis behind a word, and 0 for no operator.
pub fn binds(kind: LexemeKind) -> u8
    ensures { result ≡ spec.binds kind }
{
    match kind {
        LexemeKind::Or => 1,
        LexemeKind::And => 2,
        LexemeKind::Eq
        | LexemeKind::Ne
        | LexemeKind::Lt
        | LexemeKind::Le
        | LexemeKind::Gt
        | LexemeKind::Ge
        | LexemeKind::Is
        | LexemeKind::Not
        | LexemeKind::In
        | LexemeKind::Between => 5,
        LexemeKind::Plus | LexemeKind::Minus | LexemeKind::Concat => 6,
        LexemeKind::Star | LexemeKind::Div | LexemeKind::Percent => 7,
        LexemeKind::LParen => 9,
        _ => 0,
    }
}

/// The operator of two operands that a token is. `None` where it is none.
pub fn operator(kind: LexemeKind) -> Option<SqlOp>
    ensures { result ≡ spec.operator kind }
{
    match kind {
        LexemeKind::Or => Some(SqlOp::Or),
        LexemeKind::And => Some(SqlOp::And),
        LexemeKind::Eq => Some(SqlOp::Eq),
        LexemeKind::Ne => Some(SqlOp::Ne),
        LexemeKind::Lt => Some(SqlOp::Lt),
        LexemeKind::Le => Some(SqlOp::Le),
        LexemeKind::Gt => Some(SqlOp::Gt),
        LexemeKind::Ge => Some(SqlOp::Ge),
        LexemeKind::Plus => Some(SqlOp::Add),
        LexemeKind::Minus => Some(SqlOp::Sub),
        LexemeKind::Concat => Some(SqlOp::Concat),
        LexemeKind::Star => Some(SqlOp::Mul),
        LexemeKind::Div => Some(SqlOp::Div),
        LexemeKind::Percent => Some(SqlOp::Rem),
        _ => None,
    }
}

/// The literal with this value behind a minus.
pub fn negated(value: u64) -> i64
    requires { value ≤ 2 ^ 63 }
    ensures { result ≡ spec.negated value }
{
    if value == 0 {
        return 0;
    }
    -((value - 1) as i64) - 1
}

fn function_at(reader: &Reader<'_>) -> Option<Function>
    ensures { result ≡ spec.function_at reader.now }
{
    if reader.sees_word("coalesce") {
        Some(Function::Coalesce)
    } else if reader.sees_word("count") {
        Some(Function::Count)
    } else if reader.sees_word("sum") {
        Some(Function::Sum)
    } else if reader.sees_word("min") {
        Some(Function::Min)
    } else if reader.sees_word("max") {
        Some(Function::Max)
    } else {
        None
    }
}

/// The function whose call begins here.
pub fn call_at(reader: &Reader<'_>) -> Option<Function>
    ensures { result ≡ spec.call_at reader.now }
{
    if reader.sees_second(LexemeKind::LParen) {
        function_at(reader)
    } else {
        None
    }
}
