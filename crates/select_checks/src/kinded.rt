//! Written expressions that have a typed one over columns, with its kind.

ghost use Rattle.std.specs.Prelude.{◌≡◌, IfOk, IfSome, Some, true};
ghost use Rattle.row_expr.specs.Columns.{reads_within};
ghost use Rattle.row_expr.specs.Kinds.{is_formed, sort_of};
ghost use Rattle.plan_core.specs.Sound.{kinds_of};
ghost use Rattle.plan_core.specs.Sound as sound;
ghost use Rattle.select_checks.specs.Kinded as spec;

use expr_typing::{TypeEnd, typed};
use row_expr::Expr;
use row_expr::sort::{is_condition, sort_of};
use sql_tree::SqlExpr;
use sqlite_items::Boxed;
use std::alloc::{AllocError, Global};
use value_core::{Kind, Schema};

/// A typed expression and its kind.
#[derive(Debug, Drop)]
pub struct KindedExpr {
    pub expr: Boxed<Expr>,
    pub kind: Kind,
}

/// A typed expression in a place of its own.
fn boxed(alloc: Global, made: Expr) -> Result<Option<Boxed<Expr>>, AllocError>
    ensures { IfOk result (λ found. found ≡ Some made) }
{
    let made = Boxed::new(alloc, made)?;
    Ok(Some(made))
}

/// The typed expression over columns; `None` where there is none.
pub fn typed_tree(
    alloc: Global,
    source: &Schema,
    tree: &SqlExpr,
) -> Result<Option<Boxed<Expr>>, AllocError>
    ensures typed { IfOk result (λ found. found ≡ spec.typed_tree source.now tree.now) }
    ensures reads { IfOk result (λ found. IfSome found (λ made. reads_within (kinds_of source.now) made ≡ true)) }
    ensures formed { IfOk result (λ found. IfSome found (λ made. is_formed (sort_of made) ≡ true)) }
{
    match typed(alloc, tree, source) {
        Ok(made) => boxed(alloc, made),
        Err(end) => match end {
            TypeEnd::UnknownName { name: _ } => Ok(None),
            TypeEnd::TypeMismatch => Ok(None),
            TypeEnd::Memory => Err(AllocError),
        },
    }
}

/// The typed expression with its kind, where it has one.
pub fn kinded_tree(
    alloc: Global,
    source: &Schema,
    tree: &SqlExpr,
) -> Result<Option<KindedExpr>, AllocError>
    ensures { IfOk result (λ found. found ≡ spec.kinded_tree source.now tree.now) }
{
    let Some(expr) = typed_tree(alloc, source, tree)? else {
        return Ok(None);
    };
    let Some(kind) = expr.get().kind() else {
        return Ok(None);
    };
    Ok(Some(KindedExpr { expr, kind }))
}

/// The typed expression, where it is BOOLEAN or NULL alone.
pub fn condition_tree(
    alloc: Global,
    source: &Schema,
    tree: &SqlExpr,
) -> Result<Option<Boxed<Expr>>, AllocError>
    ensures { IfOk result (λ found. found ≡ spec.condition_tree source.now tree.now) }
{
    let Some(made) = typed_tree(alloc, source, tree)? else {
        return Ok(None);
    };
    if is_condition(sort_of(made.get())) {
        Ok(Some(made))
    } else {
        Ok(None)
    }
}

fn is_boolean(kind: Option<Kind>) -> bool
    ensures { result ≡ sound.is_boolean kind }
{
    match kind {
        Some(kind) => matches!(kind, Kind::Bool),
        None => false,
    }
}

/// The typed expression, where it is BOOLEAN.
pub fn boolean_tree(
    alloc: Global,
    source: &Schema,
    tree: &SqlExpr,
) -> Result<Option<Boxed<Expr>>, AllocError>
    ensures { IfOk result (λ found. found ≡ spec.boolean_tree source.now tree.now) }
{
    let Some(made) = typed_tree(alloc, source, tree)? else {
        return Ok(None);
    };
    if is_boolean(made.get().kind()) {
        Ok(Some(made))
    } else {
        Ok(None)
    }
}

/// WHERE over the columns that are read; `None` where there is none or it is no condition.
pub fn filter_over(
    alloc: Global,
    source: &Schema,
    filter: &Option<SqlExpr>,
) -> Result<Option<Boxed<Expr>>, AllocError>
    ensures { IfOk result (λ found. found ≡ spec.filter_over source.now filter.now) }
{
    match filter {
        None => Ok(None),
        Some(tree) => condition_tree(alloc, source, tree),
    }
}

/// Whether WHERE, where it stands, is a condition.
pub fn is_filter(
    alloc: Global,
    source: &Schema,
    filter: &Option<SqlExpr>,
) -> Result<bool, AllocError>
    ensures { IfOk result (λ fits. fits ≡ spec.is_filter source.now filter.now) }
{
    match filter {
        None => Ok(true),
        Some(tree) => {
            let found = condition_tree(alloc, source, tree)?;
            Ok(found.is_some())
        }
    }
}

/// The expression itself, out of its place.
pub fn unboxed(made: Option<Boxed<Expr>>) -> Option<Expr>
    ensures { result ≡ made }
{
    match made {
        Some(made) => Some(made.into_inner()),
        None => None,
    }
}
