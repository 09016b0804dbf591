ghost use Rattle.std.specs.Prelude.{◌≡◌, map, true, Err, IfOk};
ghost use Rattle.std.specs.Option.{option_copied, option_or};
ghost use Rattle.row_expr.specs.declared.sort.Sort.TheVariants.{Ill};
ghost use Rattle.row_expr.specs.Columns.{reads_within};
ghost use Rattle.row_expr.specs.Kinds.{is_formed, sort_of};
ghost use Rattle.expr_typing.specs.Forms.{gives};
ghost use Rattle.expr_typing.specs.Typing.{Answers, Gives, typing};
ghost use Rattle.expr_typing.specs.Typing as spec;

use crate::operand::{
    Branches, Made, Operands, among, between, binary, cast, choice, column, first_known, guarded,
    literal, negate, null_test, number_literal, opposite, text_literal, within,
};
use row_expr::Expr;
use sql_tree::{SqlArm, SqlExpr};
use std::alloc::{AllocError, Global};
use value_core::{Column, ListOf, Name, Schema, Value};

/// Why an expression has no typed one.
#[derive(Debug, Drop)]
pub enum TypeEnd {
    /// No column has this name.
    UnknownName { name: Name },
    /// Kinds that don't meet, or an aggregate.
    TypeMismatch,
    /// Want of memory, which no definition gives.
    Memory,
}

/// The typed expression, or the first unknown name, or that kinds don't meet.
fn answered(alloc: Global, tree: &SqlExpr, columns: &Schema) -> Result<Expr, TypeEnd>
    ensures { Answers (typing columns.now tree.now) result }
{
    if let Some(name) = first_unknown(tree, columns.as_slice()) {
        return Err(match name.copy(alloc) {
            Ok(name) => TypeEnd::UnknownName { name },
            Err(AllocError) => TypeEnd::Memory,
        });
    }
    match operand_of(alloc, tree, columns.as_slice()) {
        Ok(Some(found)) => Ok(found.expr.into_inner()),
        Ok(None) => Err(TypeEnd::TypeMismatch),
        Err(AllocError) => Err(TypeEnd::Memory),
    }
}

/// The typed expression of an expression over columns (Databricks SQL reference, data types and
/// operators, under ANSI rules). Names are those of columns but for the case of ASCII letters. A
/// literal is an INT where it fits, else a BIGINT; an INT beside a BIGINT is widened. UnknownName
/// tells the first name from the left that no column has, wherever it stands; TypeMismatch comes
/// where all names are known and kinds don't meet, or an aggregate stands. What is typed may be of
/// any kind, as NULL is: whoever wants a kind asks for it.
pub fn typed(alloc: Global, tree: &SqlExpr, columns: &Schema) -> Result<Expr, TypeEnd>
    ensures typed { Answers (typing columns.now tree.now) result }
    // It has the kind that its form gives.
    ensures kind { IfOk result (λ made. sort_of made ≡ gives columns.now tree.now) }
    ensures formed { IfOk result (λ made. is_formed (sort_of made) ≡ true) }
    // It reads columns that are there, each of its kind.
    ensures reads { IfOk result (λ made. reads_within (map (λ column. column.kind) columns.now) made ≡ true) }
    ensures mismatch { result ≡ Err TypeEnd.TypeMismatch → gives columns.now tree.now ≡ Ill }
{
    answered(alloc, tree, columns)
}

/// The left name, or else the right one.
fn first<'a>(left: Option<&'a Name>, right: Option<&'a Name>) -> Option<&'a Name>
    ensures { option_copied result ≡ option_or (option_copied left.entry) (option_copied right.entry) }
{
    match left {
        Some(name) => Some(name),
        None => right,
    }
}

fn has_column(columns: &[Column], name: &Name) -> bool
    ensures { result ≡ spec.has_column columns.now name.now }
{
    columns.iter().any(|column| column.name.is_same(name))
}

/// The name, if no column has it.
fn if_unknown<'a>(name: &'a Name, columns: &[Column]) -> Option<&'a Name>
    ensures { option_copied result ≡ spec.if_unknown columns.now name.now }
{
    if has_column(columns, name) {
        None
    } else {
        Some(name)
    }
}

/// The first name from the left that no column has, but for the case of ASCII letters; `None` where
/// each is the name of a column. A check of several expressions asks it of each before it types
/// one, so that an unknown name is told before kinds that don't meet. Takes no memory.
#[cycle(unknown)]
pub fn first_unknown<'a>(tree: &'a SqlExpr, columns: &[Column]) -> Option<&'a Name>
    ensures { option_copied result ≡ spec.first_unknown columns.now tree.now }
{
    match tree {
        SqlExpr::Number(_) => None,
        SqlExpr::Str(_) => None,
        SqlExpr::Bool(_) => None,
        SqlExpr::Null => None,
        SqlExpr::Name(name) => if_unknown(name, columns),
        SqlExpr::Neg(a) => first_unknown(a.get(), columns),
        SqlExpr::Not(a) => first_unknown(a.get(), columns),
        SqlExpr::Binary { op: _, left, right } => first(
            first_unknown(left.get(), columns),
            first_unknown(right.get(), columns),
        ),
        SqlExpr::IsNull {
            expr: a,
            negated: _,
        } => first_unknown(a.get(), columns),
        SqlExpr::InList {
            expr: a,
            list,
            negated: _,
        } => first(
            first_unknown(a.get(), columns),
            first_unknown_of(list.as_slice(), columns),
        ),
        SqlExpr::Between {
            expr: a,
            low,
            high,
            negated: _,
        } => first(
            first_unknown(a.get(), columns),
            first(
                first_unknown(low.get(), columns),
                first_unknown(high.get(), columns),
            ),
        ),
        SqlExpr::Case { arms, other } => match other {
            None => first_unknown_arm(arms.as_slice(), columns),
            Some(x) => first(
                first_unknown_arm(arms.as_slice(), columns),
                first_unknown(x.get(), columns),
            ),
        },
        SqlExpr::Cast {
            expr: a,
            kind: _,
            trying: _,
        } => first_unknown(a.get(), columns),
        SqlExpr::Coalesce(list) => first_unknown_of(list.as_slice(), columns),
        SqlExpr::CountAll => None,
        SqlExpr::Count(a) => first_unknown(a.get(), columns),
        SqlExpr::Sum(a) => first_unknown(a.get(), columns),
        SqlExpr::Min(a) => first_unknown(a.get(), columns),
        SqlExpr::Max(a) => first_unknown(a.get(), columns),
    }
}

#[cycle(unknown)]
fn first_unknown_of<'a>(list: &'a [SqlExpr], columns: &[Column]) -> Option<&'a Name>
    ensures { option_copied result ≡ spec.first_of (map (spec.first_unknown columns.now) list.now) }
{
    for tree in list {
        let found = first_unknown(tree, columns);
        if found.is_some() {
            return found;
        }
    }
    None
}

#[cycle(unknown)]
fn first_unknown_arm<'a>(arms: &'a [SqlArm], columns: &[Column]) -> Option<&'a Name>
    ensures { option_copied result ≡ spec.first_of (map (spec.arm_unknown columns.now) arms.now) }
{
    for arm in arms {
        let found = first(
            first_unknown(&arm.when, columns),
            first_unknown(&arm.then, columns),
        );
        if found.is_some() {
            return found;
        }
    }
    None
}

/// The typed expression with its sort; `None` where a name is unknown or kinds don't meet.
#[cycle(operand)]
fn operand_of(alloc: Global, tree: &SqlExpr, columns: &[Column]) -> Made
    ensures { Gives result (spec.operand_of columns.now tree.now) }
{
    match tree {
        SqlExpr::Number(number) => number_literal(alloc, *number),
        SqlExpr::Str(text) => text_literal(alloc, text),
        SqlExpr::Bool(truth) => literal(alloc, Value::Bool(*truth)),
        SqlExpr::Null => literal(alloc, Value::Null),
        SqlExpr::Name(name) => column(alloc, columns, name),
        SqlExpr::Neg(a) => negate(alloc, operand_of(alloc, a.get(), columns)),
        SqlExpr::Not(a) => opposite(alloc, operand_of(alloc, a.get(), columns)),
        SqlExpr::Binary { op, left, right } => binary(
            alloc,
            *op,
            operand_of(alloc, left.get(), columns),
            operand_of(alloc, right.get(), columns),
        ),
        SqlExpr::IsNull { expr: a, negated } => {
            null_test(alloc, *negated, operand_of(alloc, a.get(), columns))
        }
        SqlExpr::InList {
            expr: a,
            list,
            negated,
        } => among(
            alloc,
            *negated,
            operand_of(alloc, a.get(), columns),
            operands_of(alloc, list.as_slice(), columns),
        ),
        SqlExpr::Between {
            expr: a,
            low,
            high,
            negated,
        } => within(
            alloc,
            *negated,
            operand_of(alloc, a.get(), columns),
            between(
                operand_of(alloc, low.get(), columns),
                operand_of(alloc, high.get(), columns),
            ),
        ),
        SqlExpr::Case { arms, other } => match other {
            None => choice(
                alloc,
                branches_of(alloc, arms.as_slice(), columns),
                literal(alloc, Value::Null),
            ),
            Some(x) => choice(
                alloc,
                branches_of(alloc, arms.as_slice(), columns),
                operand_of(alloc, x.get(), columns),
            ),
        },
        SqlExpr::Cast {
            expr: a,
            kind,
            trying,
        } => cast(alloc, *kind, *trying, operand_of(alloc, a.get(), columns)),
        SqlExpr::Coalesce(list) => {
            first_known(alloc, operands_of(alloc, list.as_slice(), columns))
        }
        SqlExpr::CountAll => Ok(None),
        SqlExpr::Count(_) => Ok(None),
        SqlExpr::Sum(_) => Ok(None),
        SqlExpr::Min(_) => Ok(None),
        SqlExpr::Max(_) => Ok(None),
    }
}

#[cycle(operand)]
fn operands_of(
    alloc: Global,
    list: &[SqlExpr],
    columns: &[Column],
) -> Result<Option<Operands>, AllocError>
    ensures { Gives result (spec.all (map (spec.operand_of columns.now) list.now)) }
{
    let mut operands = ListOf::new(alloc);
    for tree in list {
        let Some(operand) = operand_of(alloc, tree, columns)? else {
            return Ok(None);
        };
        operands.push(operand)?;
    }
    Ok(Some(operands))
}

#[cycle(operand)]
fn branches_of(
    alloc: Global,
    arms: &[SqlArm],
    columns: &[Column],
) -> Result<Option<Branches>, AllocError>
    ensures { Gives result (spec.all (map (spec.branch_of columns.now) arms.now)) }
{
    let mut branches = ListOf::new(alloc);
    for arm in arms {
        let when = operand_of(alloc, &arm.when, columns)?;
        let gives = operand_of(alloc, &arm.then, columns)?;
        let Some(made) = guarded(when, gives) else {
            return Ok(None);
        };
        branches.push(made)?;
    }
    Ok(Some(branches))
}
