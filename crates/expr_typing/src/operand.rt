ghost use Rattle.std.specs.Prelude.{◌≡◌, List, Option, map, option_and_then, position};
ghost use Rattle.value_core.specs.NameFold.{same_name};
ghost use Rattle.expr_typing.specs.declared.operand.Branch.{Branch};
ghost use Rattle.expr_typing.specs.declared.operand.Limits.{Limits};
ghost use Rattle.expr_typing.specs.declared.operand.Operand.{Operand};
ghost use Rattle.expr_typing.specs.Typing.{Gives};
ghost use Rattle.expr_typing.specs.Typing as spec;

use row_expr::sort::{
    Sort, calculated, is_condition, join, number, sort_of_value, text, truth, where_formed,
    where_of,
};
use row_expr::{Arithmetic, Arm, Comparison, Expr};
use sql_tree::{SqlOp, SqlType};
use sqlite_items::{Boxed, Items};
use std::alloc::{AllocError, Global};
use value_core::{Column, Kind, ListOf, Name, Text, Value};

/// A typed expression, and what is known of its kind.
#[derive(Debug, Drop)]
pub struct Operand {
    pub expr: Boxed<Expr>,
    pub sort: Sort,
}

/// Operands in order.
pub type Operands = ListOf<Operand>;

/// One WHEN of a CASE before its result is widened.
#[derive(Debug, Drop)]
pub struct Branch {
    pub when: Boxed<Expr>,
    pub gives: Operand,
}

/// Branches in order.
pub type Branches = ListOf<Branch>;

/// `low AND high` of a BETWEEN.
#[derive(Debug, Drop)]
pub struct Limits {
    pub low: Operand,
    pub high: Operand,
}

/// What is made of a part: `None` where kinds don't meet.
pub type Made = Result<Option<Operand>, AllocError>;

/// The join of two sorts, where an INT beside a BIGINT is widened.
fn wide_join(left: Sort, right: Sort) -> Sort
    ensures { result ≡ spec.wide_join left right }
{
    match (left, right) {
        (Sort::Of(Kind::Int), Sort::Of(Kind::Big)) => right,
        (Sort::Of(Kind::Big), Sort::Of(Kind::Int)) => left,
        _ => join(left, right),
    }
}

fn wide_join_all(operands: &[Operand]) -> Sort
    ensures { result ≡ spec.wide_join_all operands.now }
{
    let mut joined = Sort::Any;
    for operand in operands {
        joined = wide_join(joined, operand.sort);
    }
    joined
}

fn wide_join_results(branches: &[Branch]) -> Sort
    ensures { result ≡ spec.wide_join_all (map (λ made. made.gives) branches.now) }
{
    let mut joined = Sort::Any;
    for branch in branches {
        joined = wide_join(joined, branch.gives.sort);
    }
    joined
}

fn kind_of_type(named: SqlType) -> Kind
    ensures { result ≡ spec.kind_of_type named }
{
    match named {
        SqlType::Bool => Kind::Bool,
        SqlType::Int => Kind::Int,
        SqlType::Big => Kind::Big,
        SqlType::Str => Kind::Str,
    }
}

/// An expression of that sort, unless there is none.
fn formed(alloc: Global, sort: Sort, expr: Expr) -> Made
    ensures { Gives result (spec.formed sort expr) }
{
    if matches!(sort, Sort::Ill) {
        return Ok(None);
    }
    let expr = Boxed::new(alloc, expr)?;
    Ok(Some(Operand { expr, sort }))
}

/// An operand beside others of this join: an INT is widened to a BIGINT.
fn widened_to(alloc: Global, joined: Sort, operand: Operand) -> Result<Boxed<Expr>, AllocError>
    ensures { Gives result (spec.widened_to joined operand) }
{
    let Operand { expr, sort } = operand;
    match (joined, sort) {
        (Sort::Of(Kind::Big), Sort::Of(Kind::Int)) => Boxed::new(alloc, Expr::Widen(expr)),
        _ => Ok(expr),
    }
}

fn all_widened_to(
    alloc: Global,
    joined: Sort,
    operands: Operands,
) -> Result<Items<Expr>, AllocError>
    ensures { Gives result (map (spec.widened_to joined) operands) }
{
    let mut list = Items::new(alloc);
    for operand in operands.into_vec() {
        let expr = widened_to(alloc, joined, operand)?;
        list.push(expr.into_inner())?;
    }
    Ok(list)
}

fn arm_widened_to(alloc: Global, joined: Sort, branch: Branch) -> Result<Arm, AllocError>
    ensures { Gives result (spec.widened_arm joined branch) }
{
    let Branch { when, gives } = branch;
    let gives = widened_to(alloc, joined, gives)?;
    Ok(Arm {
        when: when.into_inner(),
        gives: gives.into_inner(),
    })
}

fn arms_widened_to(
    alloc: Global,
    joined: Sort,
    branches: Branches,
) -> Result<Items<Arm>, AllocError>
    ensures { Gives result (map (spec.widened_arm joined) branches) }
{
    let mut list = Items::new(alloc);
    for branch in branches.into_vec() {
        list.push(arm_widened_to(alloc, joined, branch)?)?;
    }
    Ok(list)
}

/// A literal of that value.
pub fn literal(alloc: Global, value: Value) -> Made
    ensures { Gives result (spec.literal value) }
{
    formed(alloc, sort_of_value(&value), Expr::Literal(value))
}

/// A literal of that text.
pub fn text_literal(alloc: Global, text: &Text) -> Made
    ensures { Gives result (spec.literal (Value.Str text.now)) }
{
    let copy = text.copy(alloc)?;
    literal(alloc, Value::Str(copy))
}

/// A literal that is an INT where it fits.
pub fn number_literal(alloc: Global, number: i64) -> Made
    ensures { Gives result (spec.number_literal number) }
{
    match i32::try_from(number) {
        Ok(small) => literal(alloc, Value::Int(small)),
        Err(_) => literal(alloc, Value::Big(number)),
    }
}

fn place_of(columns: &[Column], name: &Name) -> Option<usize>
    ensures { result ≡ position (λ found. same_name found.name name.now) columns.now }
{
    columns.iter().position(|found| found.name.is_same(name))
}

/// The first column of that name, with its place.
pub fn column(alloc: Global, columns: &[Column], name: &Name) -> Made
    ensures { Gives result (spec.column columns.now name.now) }
{
    let Some(at) = place_of(columns, name) else {
        return Ok(None);
    };
    let Some(found) = columns.get(at) else {
        return Ok(None);
    };
    formed(alloc, Sort::Of(found.kind), Expr::Column(at, found.kind))
}

/// The unary `-`.
pub fn negate(alloc: Global, operand: Made) -> Made
    ensures { (a : Option Operand) → Gives operand a → Gives result (option_and_then spec.negated a) }
{
    let Some(a) = operand? else {
        return Ok(None);
    };
    formed(alloc, number(a.sort), Expr::Negate(a.expr))
}

/// NOT.
pub fn opposite(alloc: Global, operand: Made) -> Made
    ensures { (a : Option Operand) → Gives operand a → Gives result (option_and_then spec.opposite a) }
{
    let Some(a) = operand? else {
        return Ok(None);
    };
    formed(alloc, truth(a.sort, Sort::Any), Expr::Not(a.expr))
}

fn both_true(alloc: Global, a: Operand, b: Operand) -> Made
    ensures { Gives result (spec.connected Expr.And a b) }
{
    formed(alloc, truth(a.sort, b.sort), Expr::And(a.expr, b.expr))
}

fn either_true(alloc: Global, a: Operand, b: Operand) -> Made
    ensures { Gives result (spec.connected Expr.Or a b) }
{
    formed(alloc, truth(a.sort, b.sort), Expr::Or(a.expr, b.expr))
}

fn concatenate(alloc: Global, a: Operand, b: Operand) -> Made
    ensures { Gives result (spec.concatenated a b) }
{
    let sort = text(wide_join(a.sort, b.sort));
    formed(alloc, sort, Expr::Concat(a.expr, b.expr))
}

fn compare(alloc: Global, by: Comparison, a: Operand, b: Operand) -> Made
    ensures { Gives result (spec.compared by a b) }
{
    let joined = wide_join(a.sort, b.sort);
    let left = widened_to(alloc, joined, a)?;
    let right = widened_to(alloc, joined, b)?;
    let sort = where_of(joined, Sort::Of(Kind::Bool));
    formed(alloc, sort, Expr::Compare(by, left, right))
}

fn compute(alloc: Global, by: Arithmetic, a: Operand, b: Operand) -> Made
    ensures { Gives result (spec.computed by a b) }
{
    let joined = wide_join(a.sort, b.sort);
    let left = widened_to(alloc, joined, a)?;
    let right = widened_to(alloc, joined, b)?;
    let sort = calculated(by, joined);
    formed(alloc, sort, Expr::Arithmetic(by, left, right))
}

fn operate(alloc: Global, op: SqlOp, a: Operand, b: Operand) -> Made
    ensures { Gives result (spec.operation op a b) }
{
    match op {
        SqlOp::Or => either_true(alloc, a, b),
        SqlOp::And => both_true(alloc, a, b),
        SqlOp::Eq => compare(alloc, Comparison::Eq, a, b),
        SqlOp::Ne => compare(alloc, Comparison::Ne, a, b),
        SqlOp::Lt => compare(alloc, Comparison::Lt, a, b),
        SqlOp::Le => compare(alloc, Comparison::Le, a, b),
        SqlOp::Gt => compare(alloc, Comparison::Gt, a, b),
        SqlOp::Ge => compare(alloc, Comparison::Ge, a, b),
        SqlOp::Add => compute(alloc, Arithmetic::Add, a, b),
        SqlOp::Sub => compute(alloc, Arithmetic::Sub, a, b),
        SqlOp::Concat => concatenate(alloc, a, b),
        SqlOp::Mul => compute(alloc, Arithmetic::Mul, a, b),
        SqlOp::Div => compute(alloc, Arithmetic::Div, a, b),
        SqlOp::Rem => compute(alloc, Arithmetic::Rem, a, b),
    }
}

/// An operator between two operands.
pub fn binary(alloc: Global, op: SqlOp, left: Made, right: Made) -> Made
    ensures { (a b : Option Operand) → Gives left a → Gives right b → Gives result (spec.two (spec.operation op) a b) }
{
    let Some(a) = left? else {
        return Ok(None);
    };
    let Some(b) = right? else {
        return Ok(None);
    };
    operate(alloc, op, a, b)
}

/// `NOT IN` and the like are the NOT of `IN`.
fn not_if(alloc: Global, negated: bool, test: Expr) -> Result<Expr, AllocError>
    ensures { Gives result (spec.not_if negated test) }
{
    if negated {
        Ok(Expr::Not(Boxed::new(alloc, test)?))
    } else {
        Ok(test)
    }
}

/// IS NULL.
pub fn null_test(alloc: Global, negated: bool, operand: Made) -> Made
    ensures { (a : Option Operand) → Gives operand a → Gives result (option_and_then (spec.null_test negated) a) }
{
    let Some(a) = operand? else {
        return Ok(None);
    };
    let sort = where_formed(a.sort, Sort::Of(Kind::Bool));
    let test = not_if(alloc, negated, Expr::IsNull(a.expr))?;
    formed(alloc, sort, test)
}

fn among_known(alloc: Global, negated: bool, a: Operand, elements: Operands) -> Made
    ensures { Gives result (spec.among negated a elements) }
{
    let joined = wide_join(a.sort, wide_join_all(elements.as_slice()));
    let operand = widened_to(alloc, joined, a)?;
    let list = all_widened_to(alloc, joined, elements)?;
    let test = not_if(alloc, negated, Expr::InList(operand, list))?;
    formed(alloc, where_of(joined, Sort::Of(Kind::Bool)), test)
}

/// IN.
pub fn among(
    alloc: Global,
    negated: bool,
    operand: Made,
    elements: Result<Option<Operands>, AllocError>,
) -> Made
    ensures { (a : Option Operand) (list : Option (List Operand)) → Gives operand a → Gives elements list → Gives result (spec.two (spec.among negated) a list) }
{
    let Some(a) = operand? else {
        return Ok(None);
    };
    let Some(list) = elements? else {
        return Ok(None);
    };
    among_known(alloc, negated, a, list)
}

/// The bounds of a BETWEEN.
pub fn between(low: Made, high: Made) -> Result<Option<Limits>, AllocError>
    ensures { (a b : Option Operand) → Gives low a → Gives high b → Gives result (spec.two spec.limits a b) }
{
    let Some(least) = low? else {
        return Ok(None);
    };
    let Some(most) = high? else {
        return Ok(None);
    };
    Ok(Some(Limits {
        low: least,
        high: most,
    }))
}

fn within_known(alloc: Global, negated: bool, a: Operand, limits: Limits) -> Made
    ensures { Gives result (spec.within negated a limits) }
{
    let Limits { low, high } = limits;
    let joined = wide_join(a.sort, wide_join(low.sort, high.sort));
    let operand = widened_to(alloc, joined, a)?;
    let least = widened_to(alloc, joined, low)?;
    let most = widened_to(alloc, joined, high)?;
    let test = not_if(alloc, negated, Expr::Between(operand, least, most))?;
    formed(alloc, where_of(joined, Sort::Of(Kind::Bool)), test)
}

/// BETWEEN.
pub fn within(
    alloc: Global,
    negated: bool,
    operand: Made,
    limits: Result<Option<Limits>, AllocError>,
) -> Made
    ensures { (a : Option Operand) (b : Option Limits) → Gives operand a → Gives limits b → Gives result (spec.two (spec.within negated) a b) }
{
    let Some(a) = operand? else {
        return Ok(None);
    };
    let Some(both) = limits? else {
        return Ok(None);
    };
    within_known(alloc, negated, a, both)
}

/// A WHEN whose condition is one.
pub fn guarded(condition: Option<Operand>, gives: Option<Operand>) -> Option<Branch>
    ensures { result ≡ spec.two spec.guarded condition gives }
{
    let Some(test) = condition else {
        return None;
    };
    let Some(gives) = gives else {
        return None;
    };
    if is_condition(test.sort) {
        Some(Branch {
            when: test.expr,
            gives,
        })
    } else {
        None
    }
}

fn choose(alloc: Global, branches: Branches, other: Operand) -> Made
    ensures { Gives result (spec.choice branches other) }
{
    let joined = wide_join(wide_join_results(branches.as_slice()), other.sort);
    let arms = arms_widened_to(alloc, joined, branches)?;
    let other = widened_to(alloc, joined, other)?;
    formed(alloc, where_of(joined, joined), Expr::Case(arms, other))
}

/// CASE.
pub fn choice(alloc: Global, branches: Result<Option<Branches>, AllocError>, other: Made) -> Made
    ensures { (arms : Option (List Branch)) (last : Option Operand) → Gives branches arms → Gives other last → Gives result (spec.two spec.choice arms last) }
{
    let Some(list) = branches? else {
        return Ok(None);
    };
    let Some(last) = other? else {
        return Ok(None);
    };
    choose(alloc, list, last)
}

/// `coalesce`.
pub fn first_known(alloc: Global, operands: Result<Option<Operands>, AllocError>) -> Made
    ensures { (list : Option (List Operand)) → Gives operands list → Gives result (option_and_then spec.first_known list) }
{
    let Some(list) = operands? else {
        return Ok(None);
    };
    let joined = wide_join_all(list.as_slice());
    let operands = all_widened_to(alloc, joined, list)?;
    formed(alloc, where_of(joined, joined), Expr::Coalesce(operands))
}

fn converted(from: Boxed<Expr>, to: Kind, trying: bool) -> Expr
    ensures { result ≡ spec.converted trying to from }
{
    if trying {
        Expr::TryCast(from, to)
    } else {
        Expr::Cast(from, to)
    }
}

/// CAST and TRY_CAST.
pub fn cast(alloc: Global, to: SqlType, trying: bool, operand: Made) -> Made
    ensures { (a : Option Operand) → Gives operand a → Gives result (option_and_then (spec.cast to trying) a) }
{
    let Some(a) = operand? else {
        return Ok(None);
    };
    let kind = kind_of_type(to);
    let sort = where_formed(a.sort, Sort::Of(kind));
    formed(alloc, sort, converted(a.expr, kind, trying))
}
