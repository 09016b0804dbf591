//! The print of expressions.

ghost use Rattle.std.specs.Prelude.{◌≡◌, [], ◌∷◌, ◌++◌, codes, if◌then◌else◌, map, OnOk};
ghost use Rattle.sql_tree.specs.Lexemes.{kind, same_kind};
ghost use Rattle.sql_tree.specs.Print as print;
ghost use Rattle.sql_print.specs.Writing.{put, puts, IsPlain};

use crate::writer::Writer;
use sql_tree::{LexemeKind, SqlArm, SqlExpr, SqlOp, SqlType};
use sqlite_items::Boxed;
use std::alloc::{AllocError, Global};

/// The lexeme of an operator.
fn operator(op: SqlOp) -> LexemeKind
    ensures value { result ≡ print.operator op }
    ensures plain { IsPlain result }
{
    match op {
        SqlOp::Or => LexemeKind::Or,
        SqlOp::And => LexemeKind::And,
        SqlOp::Eq => LexemeKind::Eq,
        SqlOp::Ne => LexemeKind::Ne,
        SqlOp::Lt => LexemeKind::Lt,
        SqlOp::Le => LexemeKind::Le,
        SqlOp::Gt => LexemeKind::Gt,
        SqlOp::Ge => LexemeKind::Ge,
        SqlOp::Add => LexemeKind::Plus,
        SqlOp::Sub => LexemeKind::Minus,
        SqlOp::Concat => LexemeKind::Concat,
        SqlOp::Mul => LexemeKind::Star,
        SqlOp::Div => LexemeKind::Div,
        SqlOp::Rem => LexemeKind::Percent,
    }
}

/// The word of a type: BOOLEAN, INT, BIGINT or STRING.
pub fn type_word(out: &mut Writer, kind: SqlType) -> Result<(), AllocError>
    ensures { OnOk result (out.new ≡ put out.old (print.type_word kind)) }
{
    match kind {
        SqlType::Bool => out.word("BOOLEAN"),
        SqlType::Int => out.word("INT"),
        SqlType::Big => out.word("BIGINT"),
        SqlType::Str => out.word("STRING"),
    }
}

/// TRUE or FALSE.
pub fn truth(out: &mut Writer, is_true: bool) -> Result<(), AllocError>
    ensures { OnOk result (out.new ≡ put out.old (print.token (if is_true then LexemeKind.True else LexemeKind.False))) }
{
    if is_true {
        out.token(LexemeKind::True)
    } else {
        out.token(LexemeKind::False)
    }
}

/// The digits of a literal, with `-` directly before them where it is negative.
fn literal(out: &mut Writer, alloc: Global, number: i64) -> Result<(), AllocError>
    ensures { OnOk result (out.new ≡ puts out.old (print.literal number)) }
{
    if number < 0 {
        out.token(LexemeKind::Minus)?;
    }
    out.number(alloc, number.unsigned_abs())
}

/// Whether the print is a number alone.
fn is_plain_number(tree: &SqlExpr) -> bool
    ensures { result ≡ same_kind (kind (print.expr_print tree.now)) LexemeKind.Number }
{
    match tree {
        SqlExpr::Number(number) => *number >= 0,
        SqlExpr::Str(_) => false,
        SqlExpr::Bool(_) => false,
        SqlExpr::Null => false,
        SqlExpr::Name(_) => false,
        SqlExpr::Neg(_) => false,
        SqlExpr::Not(_) => false,
        SqlExpr::Binary { .. } => false,
        SqlExpr::IsNull { .. } => false,
        SqlExpr::InList { .. } => false,
        SqlExpr::Between { .. } => false,
        SqlExpr::Case { .. } => false,
        SqlExpr::Cast { .. } => false,
        SqlExpr::Coalesce(_) => false,
        SqlExpr::CountAll => false,
        SqlExpr::Count(_) => false,
        SqlExpr::Sum(_) => false,
        SqlExpr::Min(_) => false,
        SqlExpr::Max(_) => false,
    }
}

/// CAST or TRY_CAST, and the parenthesis behind it.
fn cast(out: &mut Writer, trying: bool) -> Result<(), AllocError>
    ensures { OnOk result (out.new ≡ put out.old (print.token (if trying then LexemeKind.TryCast else LexemeKind.Cast))) }
{
    if trying {
        out.token(LexemeKind::TryCast)
    } else {
        out.token(LexemeKind::Cast)
    }
}

/// A function's name and the parenthesis behind it.
fn open_call(out: &mut Writer, function: &str) -> Result<(), AllocError>
    ensures { OnOk result (out.new ≡ put (put out.old (print.word function.now)) (print.token LexemeKind.LParen)) }
{
    out.word(function)?;
    out.token(LexemeKind::LParen)
}

/// `count(*)`.
fn count_all(out: &mut Writer) -> Result<(), AllocError>
    ensures { OnOk result (out.new ≡ puts out.old (print.word (codes "count") ∷ print.in_parens (print.token LexemeKind.Star ∷ []))) }
{
    open_call(out, "count")?;
    out.token(LexemeKind::Star)?;
    out.token(LexemeKind::RParen)
}

/// An expression: each operator, test and NOT in parentheses of its own.
#[cycle(print)]
pub fn expr(out: &mut Writer, alloc: Global, tree: &SqlExpr) -> Result<(), AllocError>
    ensures { OnOk result (out.new ≡ puts out.old (print.expr_print tree.now)) }
{
    match tree {
        SqlExpr::Number(number) => literal(out, alloc, *number),
        SqlExpr::Str(text) => out.string(text),
        SqlExpr::Bool(is_true) => truth(out, *is_true),
        SqlExpr::Null => out.token(LexemeKind::Null),
        SqlExpr::Name(name) => out.name(name),
        SqlExpr::Neg(x) => negative(out, alloc, x.get()),
        SqlExpr::Not(x) => inverted(out, alloc, x.get()),
        SqlExpr::Binary { op, left, right } => {
            opened(out, alloc, left.get())?;
            infix(out, alloc, *op, right.get())
        }
        SqlExpr::IsNull { expr: x, negated } => null_test(out, alloc, x.get(), *negated),
        SqlExpr::InList {
            expr: x,
            list,
            negated,
        } => {
            opened(out, alloc, x.get())?;
            listed(out, alloc, list.as_slice(), *negated)
        }
        SqlExpr::Between {
            expr: x,
            low,
            high,
            negated,
        } => {
            opened(out, alloc, x.get())?;
            between(out, alloc, low.get(), *negated)?;
            closed(out, alloc, high.get())
        }
        SqlExpr::Case { arms, other } => {
            case_arms(out, alloc, arms.as_slice())?;
            case_end(out, alloc, other)
        }
        SqlExpr::Cast {
            expr: x,
            kind,
            trying,
        } => cast_of(out, alloc, x.get(), *kind, *trying),
        SqlExpr::Coalesce(list) => coalesce(out, alloc, list.as_slice()),
        SqlExpr::CountAll => count_all(out),
        SqlExpr::Count(x) => call(out, alloc, "count", x.get()),
        SqlExpr::Sum(x) => call(out, alloc, "sum", x.get()),
        SqlExpr::Min(x) => call(out, alloc, "min", x.get()),
        SqlExpr::Max(x) => call(out, alloc, "max", x.get()),
    }
}

/// `( x`, as far as the first operand of an operator or a test.
#[cycle(print)]
fn opened(out: &mut Writer, alloc: Global, x: &SqlExpr) -> Result<(), AllocError>
    ensures { OnOk result (out.new ≡ puts (put out.old (print.token LexemeKind.LParen)) (print.expr_print x.now)) }
{
    out.token(LexemeKind::LParen)?;
    expr(out, alloc, x)
}

/// `x )`, from the last operand on.
#[cycle(print)]
fn closed(out: &mut Writer, alloc: Global, x: &SqlExpr) -> Result<(), AllocError>
    ensures { OnOk result (out.new ≡ put (puts out.old (print.expr_print x.now)) (print.token LexemeKind.RParen)) }
{
    expr(out, alloc, x)?;
    out.token(LexemeKind::RParen)
}

/// `( - x )`, where a literal that isn't negative has parentheses of its own.
#[cycle(print)]
fn negative(out: &mut Writer, alloc: Global, x: &SqlExpr) -> Result<(), AllocError>
    ensures { OnOk result (out.new ≡ puts out.old (print.in_parens (print.token LexemeKind.Minus ∷ print.operand (print.expr_print x.now)))) }
{
    let is_plain = is_plain_number(x);
    out.token(LexemeKind::LParen)?;
    out.token(LexemeKind::Minus)?;
    out.token_if(is_plain, LexemeKind::LParen)?;
    expr(out, alloc, x)?;
    out.token_if(is_plain, LexemeKind::RParen)?;
    out.token(LexemeKind::RParen)
}

/// `( NOT x )`.
#[cycle(print)]
fn inverted(out: &mut Writer, alloc: Global, x: &SqlExpr) -> Result<(), AllocError>
    ensures { OnOk result (out.new ≡ puts out.old (print.in_parens (print.token LexemeKind.Not ∷ print.expr_print x.now))) }
{
    out.token(LexemeKind::LParen)?;
    out.token(LexemeKind::Not)?;
    closed(out, alloc, x)
}

/// `op right )`, behind the left operand.
#[cycle(print)]
fn infix(out: &mut Writer, alloc: Global, op: SqlOp, right: &SqlExpr) -> Result<(), AllocError>
    ensures { OnOk result (out.new ≡ put (puts (put out.old (print.token (print.operator op))) (print.expr_print right.now)) (print.token LexemeKind.RParen)) }
{
    out.token(operator(op))?;
    closed(out, alloc, right)
}

/// `( x IS [NOT] NULL )`.
#[cycle(print)]
fn null_test(out: &mut Writer, alloc: Global, x: &SqlExpr, negated: bool) -> Result<(), AllocError>
    ensures { OnOk result (out.new ≡ puts out.old (print.in_parens (print.expr_print x.now ++ print.token LexemeKind.Is ∷ print.not_if negated ++ print.token LexemeKind.Null ∷ []))) }
{
    opened(out, alloc, x)?;
    out.token(LexemeKind::Is)?;
    out.token_if(negated, LexemeKind::Not)?;
    out.token(LexemeKind::Null)?;
    out.token(LexemeKind::RParen)
}

/// `[NOT] IN ( list ) )`, behind the operand.
#[cycle(print)]
fn listed(
    out: &mut Writer,
    alloc: Global,
    list: &[SqlExpr],
    negated: bool,
) -> Result<(), AllocError>
    ensures { OnOk result (out.new ≡ put (puts (puts out.old (print.not_if negated)) (print.token LexemeKind.In ∷ print.in_parens (print.separated (map print.expr_print list.now)))) (print.token LexemeKind.RParen)) }
{
    out.token_if(negated, LexemeKind::Not)?;
    out.token(LexemeKind::In)?;
    out.token(LexemeKind::LParen)?;
    exprs(out, alloc, list)?;
    out.token(LexemeKind::RParen)?;
    out.token(LexemeKind::RParen)
}

/// `[NOT] BETWEEN low AND`, behind the operand.
#[cycle(print)]
fn between(out: &mut Writer, alloc: Global, low: &SqlExpr, negated: bool) -> Result<(), AllocError>
    ensures { OnOk result (out.new ≡ put (puts (put (puts out.old (print.not_if negated)) (print.token LexemeKind.Between)) (print.expr_print low.now)) (print.token LexemeKind.And)) }
{
    out.token_if(negated, LexemeKind::Not)?;
    out.token(LexemeKind::Between)?;
    expr(out, alloc, low)?;
    out.token(LexemeKind::And)
}

/// `[ELSE x] END`, behind the arms.
#[cycle(print)]
fn case_end(
    out: &mut Writer,
    alloc: Global,
    other: &Option<Boxed<SqlExpr>>,
) -> Result<(), AllocError>
    ensures { OnOk result (out.new ≡ put (puts out.old (print.if_some (λ x. print.token LexemeKind.Else ∷ print.expr_print x) other.now)) (print.token LexemeKind.EndWord)) }
{
    if let Some(x) = other {
        out.token(LexemeKind::Else)?;
        expr(out, alloc, x.get())?;
    }
    out.token(LexemeKind::EndWord)
}

/// `CAST ( x AS kind )`, or TRY_CAST.
#[cycle(print)]
fn cast_of(
    out: &mut Writer,
    alloc: Global,
    x: &SqlExpr,
    kind: SqlType,
    trying: bool,
) -> Result<(), AllocError>
    ensures { OnOk result (out.new ≡ puts out.old (print.token (if trying then LexemeKind.TryCast else LexemeKind.Cast) ∷ print.in_parens (print.expr_print x.now ++ print.token LexemeKind.As ∷ print.type_word kind ∷ []))) }
{
    cast(out, trying)?;
    opened(out, alloc, x)?;
    out.token(LexemeKind::As)?;
    type_word(out, kind)?;
    out.token(LexemeKind::RParen)
}

/// `coalesce ( list )`.
#[cycle(print)]
fn coalesce(out: &mut Writer, alloc: Global, list: &[SqlExpr]) -> Result<(), AllocError>
    ensures { OnOk result (out.new ≡ puts out.old (print.word (codes "coalesce") ∷ print.in_parens (print.separated (map print.expr_print list.now)))) }
{
    open_call(out, "coalesce")?;
    exprs(out, alloc, list)?;
    out.token(LexemeKind::RParen)
}

/// A function's name and its one argument in parentheses.
#[cycle(print)]
fn call(out: &mut Writer, alloc: Global, function: &str, x: &SqlExpr) -> Result<(), AllocError>
    ensures { OnOk result (out.new ≡ puts out.old (print.word function.now ∷ print.in_parens (print.expr_print x.now))) }
{
    open_call(out, function)?;
    closed(out, alloc, x)
}

/// Expressions with a comma between two of them.
#[cycle(print)]
pub fn exprs(out: &mut Writer, alloc: Global, list: &[SqlExpr]) -> Result<(), AllocError>
    ensures { OnOk result (out.new ≡ puts out.old (print.separated (map print.expr_print list.now))) }
{
    let mut goes_on = false;
    for tree in list {
        out.token_if(goes_on, LexemeKind::Comma)?;
        expr(out, alloc, tree)?;
        goes_on = true;
    }
    Ok(())
}

/// CASE, and then the WHEN and THEN of each arm.
#[cycle(print)]
fn case_arms(out: &mut Writer, alloc: Global, arms: &[SqlArm]) -> Result<(), AllocError>
    ensures { OnOk result (out.new ≡ puts (put out.old (print.token LexemeKind.Case)) (print.all_of (map print.arm_print arms.now))) }
{
    out.token(LexemeKind::Case)?;
    for arm in arms {
        out.token(LexemeKind::When)?;
        expr(out, alloc, &arm.when)?;
        out.token(LexemeKind::Then)?;
        expr(out, alloc, &arm.then)?;
    }
    Ok(())
}
