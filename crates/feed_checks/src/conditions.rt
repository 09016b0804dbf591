//! The conditions of a change feed.

ghost use Rattle.std.specs.Prelude.{◌≡◌, IfOk, IsTrue, Some};
ghost use Rattle.expr_typing.specs.Typing.{typing};
ghost use Rattle.plan_core.specs.Sound.{is_condition_over, kinds_of};
ghost use Rattle.feed_checks.specs.Feeds as spec;

use crate::parts::{Conditions, FeedEnd};
use expr_typing::{TypeEnd, typed};
use row_expr::Expr;
use row_expr::sort::{is_condition, sort_of};
use sql_tree::{CdcTree, SqlExpr};
use sqlite_items::Boxed;
use statement_checks::CheckFault;
use std::alloc::Global;
use value_core::Schema;

/// A typed expression, where it is a condition.
fn kept_condition(alloc: Global, made: Expr) -> Result<Option<Boxed<Expr>>, FeedEnd>
    ensures told { spec.FeedTells (spec.condition_as made) result }
    ensures kept { IfOk result (λ kept. kept ≡ Some made) }
{
    if !is_condition(sort_of(&made)) {
        return Err(FeedEnd::Fault(CheckFault::TypeMismatch));
    }
    let made = Boxed::new(alloc, made)?;
    Ok(Some(made))
}

fn typed_condition(
    alloc: Global,
    tree: &SqlExpr,
    columns: &Schema,
) -> Result<Option<Boxed<Expr>>, FeedEnd>
    ensures told { spec.FeedTells (spec.condition_by (typing columns.now tree.now)) result }
    ensures reads { IfOk result (λ made. IsTrue (is_condition_over (kinds_of columns.now) made)) }
{
    match typed(alloc, tree, columns) {
        Ok(made) => kept_condition(alloc, made),
        Err(TypeEnd::UnknownName { name }) => Err(FeedEnd::Fault(CheckFault::UnknownName { name })),
        Err(TypeEnd::TypeMismatch) => Err(FeedEnd::Fault(CheckFault::TypeMismatch)),
        Err(TypeEnd::Memory) => Err(FeedEnd::Memory),
    }
}

fn condition_over(
    alloc: Global,
    tree: &Option<SqlExpr>,
    columns: &Schema,
) -> Result<Option<Boxed<Expr>>, FeedEnd>
    ensures told { spec.FeedTells (spec.condition_over columns.now tree.now) result }
    ensures reads { IfOk result (λ made. IsTrue (is_condition_over (kinds_of columns.now) made)) }
{
    match tree {
        None => Ok(None),
        Some(tree) => typed_condition(alloc, tree, columns),
    }
}

fn unboxed(condition: Option<Boxed<Expr>>) -> Option<Expr>
    ensures { result ≡ condition }
{
    match condition {
        Some(made) => Some(made.into_inner()),
        None => None,
    }
}

fn both(delete: Option<Boxed<Expr>>, truncate: Option<Boxed<Expr>>) -> Conditions
    ensures { result ≡ spec.conditions_with delete truncate }
{
    Conditions {
        delete_when: unboxed(delete),
        truncate_when: unboxed(truncate),
    }
}

/// The conditions of a change feed, typed over the columns of its source, each of them a BOOLEAN or
/// NULL; or what keeps one from being that.
pub fn conditions_of(
    alloc: Global,
    feed: &CdcTree,
    source: &Schema,
) -> Result<Boxed<Conditions>, FeedEnd>
    ensures told { spec.FeedTells (spec.conditions_of feed.now source.now) result }
    ensures delete { IfOk result (λ made. IsTrue (is_condition_over (kinds_of source.now) made.delete_when)) }
    ensures truncate { IfOk result (λ made. IsTrue (is_condition_over (kinds_of source.now) made.truncate_when)) }
{
    let delete = match condition_over(alloc, &feed.delete_when, source) {
        Ok(made) => made,
        Err(end) => return Err(end),
    };
    let truncate = match condition_over(alloc, &feed.truncate_when, source) {
        Ok(made) => made,
        Err(end) => return Err(end),
    };
    Ok(Boxed::new(alloc, both(delete, truncate))?)
}
