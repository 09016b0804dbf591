ghost use Rattle.std.specs.Prelude.{◌≡◌, map};
ghost use Rattle.row_expr.specs.Kinds as spec;

use crate::expr::{Arithmetic, Arm, Expr};
use value_core::{Kind, Value};

/// What is known of an expression's kind.
#[derive(Clone, Copy, Debug)]
pub enum Sort {
    /// Its operands don't meet.
    Ill,
    /// Any kind does, as for NULL.
    Any,
    Of(Kind),
}

fn is_same_kind(left: Kind, right: Kind) -> bool
    ensures { result ≡ spec.same_kind left right }
{
    matches!(
        (left, right),
        (Kind::Bool, Kind::Bool)
            | (Kind::Int, Kind::Int)
            | (Kind::Big, Kind::Big)
            | (Kind::Str, Kind::Str)
    )
}

/// The one kind of two operands that must be alike. `Any` joins with each kind; two kinds that
/// differ don't meet.
pub fn join(left: Sort, right: Sort) -> Sort
    ensures { result ≡ spec.join left right }
{
    match (left, right) {
        (Sort::Any, other) => other,
        (other, Sort::Any) => other,
        (Sort::Of(a), Sort::Of(b)) => {
            if is_same_kind(a, b) {
                Sort::Of(a)
            } else {
                Sort::Ill
            }
        }
        _ => Sort::Ill,
    }
}

/// The operand's sort where it is INT or BIGINT.
pub fn number(operand: Sort) -> Sort
    ensures { result ≡ spec.number operand }
{
    match operand {
        Sort::Of(Kind::Int) => operand,
        Sort::Of(Kind::Big) => operand,
        _ => Sort::Ill,
    }
}

/// The operand's sort where it is STRING.
pub fn text(operand: Sort) -> Sort
    ensures { result ≡ spec.text operand }
{
    match operand {
        Sort::Of(Kind::Str) => operand,
        _ => Sort::Ill,
    }
}

/// That sort where the wanted one is a kind.
pub fn where_of(wanted: Sort, gives: Sort) -> Sort
    ensures { result ≡ spec.where_of wanted gives }
{
    match wanted {
        Sort::Of(_) => gives,
        _ => Sort::Ill,
    }
}

/// That sort where the operand is well formed.
pub fn where_formed(operand: Sort, gives: Sort) -> Sort
    ensures { result ≡ spec.where_formed operand gives }
{
    match operand {
        Sort::Ill => Sort::Ill,
        _ => gives,
    }
}

/// Whether the operand may stand where a condition is asked for: it is BOOLEAN or NULL.
pub fn is_condition(operand: Sort) -> bool
    ensures { result ≡ spec.is_condition operand }
{
    matches!(operand, Sort::Of(Kind::Bool) | Sort::Any)
}

/// The sort of AND and OR: BOOLEAN where both operands are conditions.
pub fn truth(left: Sort, right: Sort) -> Sort
    ensures { result ≡ spec.truth left right }
{
    if is_condition(left) && is_condition(right) {
        Sort::Of(Kind::Bool)
    } else {
        Sort::Ill
    }
}

fn widened(operand: Sort) -> Sort
    ensures { result ≡ spec.widened operand }
{
    match operand {
        Sort::Of(Kind::Int) => Sort::Of(Kind::Big),
        _ => Sort::Ill,
    }
}

/// The sort of an arithmetic operator over two numbers of one kind. DIV gives BIGINT, each other
/// operator its operands' kind (Databricks SQL reference, `div` and `%`).
pub fn calculated(op: Arithmetic, operands: Sort) -> Sort
    ensures { result ≡ spec.calculated op operands }
{
    match op {
        Arithmetic::Div => where_of(number(operands), Sort::Of(Kind::Big)),
        _ => number(operands),
    }
}

/// The sort of a literal: its kind, and `Any` for NULL.
pub fn sort_of_value(value: &Value) -> Sort
    ensures { result ≡ spec.sort_of_value value.now }
{
    match value {
        Value::Null => Sort::Any,
        Value::Bool(_) => Sort::Of(Kind::Bool),
        Value::Int(_) => Sort::Of(Kind::Int),
        Value::Big(_) => Sort::Of(Kind::Big),
        Value::Str(_) => Sort::Of(Kind::Str),
    }
}

/// What is known of an expression's kind.
#[cycle(sort)]
pub fn sort_of(e: &Expr) -> Sort
    ensures { result ≡ spec.sort_of e.now }
{
    match e {
        Expr::Literal(value) => sort_of_value(value),
        Expr::Column(_, of) => Sort::Of(*of),
        Expr::Widen(a) => widened(sort_of(a.get())),
        Expr::Negate(a) => number(sort_of(a.get())),
        Expr::Arithmetic(op, a, b) => calculated(*op, join(sort_of(a.get()), sort_of(b.get()))),
        Expr::Concat(a, b) => text(join(sort_of(a.get()), sort_of(b.get()))),
        Expr::Compare(_, a, b) => where_of(
            join(sort_of(a.get()), sort_of(b.get())),
            Sort::Of(Kind::Bool),
        ),
        Expr::And(a, b) => truth(sort_of(a.get()), sort_of(b.get())),
        Expr::Or(a, b) => truth(sort_of(a.get()), sort_of(b.get())),
        Expr::Not(a) => truth(sort_of(a.get()), Sort::Any),
        Expr::IsNull(a) => where_formed(sort_of(a.get()), Sort::Of(Kind::Bool)),
        Expr::InList(a, elements) => where_of(
            join(sort_of(a.get()), join_all(elements.as_slice())),
            Sort::Of(Kind::Bool),
        ),
        Expr::Between(a, low, high) => where_of(
            join(
                sort_of(a.get()),
                join(sort_of(low.get()), sort_of(high.get())),
            ),
            Sort::Of(Kind::Bool),
        ),
        Expr::Case(arms, other) => {
            let results = join(join_results(arms.as_slice()), sort_of(other.get()));
            where_of(results, results)
        }
        Expr::Cast(a, to) => where_formed(sort_of(a.get()), Sort::Of(*to)),
        Expr::TryCast(a, to) => where_formed(sort_of(a.get()), Sort::Of(*to)),
        Expr::Coalesce(operands) => {
            let results = join_all(operands.as_slice());
            where_of(results, results)
        }
    }
}

#[cycle(sort)]
fn join_all(operands: &[Expr]) -> Sort
    ensures { result ≡ spec.join_all (map spec.sort_of operands.now) }
{
    let mut joined = Sort::Any;
    for operand in operands {
        joined = join(joined, sort_of(operand));
    }
    joined
}

/// The join of the results of arms, where each condition is one.
#[cycle(sort)]
fn join_results(arms: &[Arm]) -> Sort
    ensures { result ≡ spec.join_results (map spec.arm_sort arms.now) }
{
    let mut joined = Sort::Any;
    for arm in arms {
        if !is_condition(sort_of(&arm.when)) {
            return Sort::Ill;
        }
        joined = join(joined, sort_of(&arm.gives));
    }
    joined
}
