//! Where aggregates stand.

ghost use Rattle.std.specs.Prelude.{◌≡◌, ◌||◌, map};
ghost use Rattle.std.specs.List.{list_any};
ghost use Rattle.select_names.specs.Aggregates as spec;

use sql_tree::{Out, Select, SqlArm, SqlExpr};

/// Whether one of two parts has an aggregate.
fn either(left: bool, right: bool) -> bool
    ensures { result ≡ (left || right) }
{
    left || right
}

/// Whether an expression is an aggregate or has one in it.
#[cycle(aggregate)]
pub fn has_aggregate(tree: &SqlExpr) -> bool
    ensures { result ≡ spec.has_aggregate tree.now }
{
    match tree {
        SqlExpr::Number(_) => false,
        SqlExpr::Str(_) => false,
        SqlExpr::Bool(_) => false,
        SqlExpr::Null => false,
        SqlExpr::Name(_) => false,
        SqlExpr::Neg(a) => has_aggregate(a.get()),
        SqlExpr::Not(a) => has_aggregate(a.get()),
        SqlExpr::Binary { op: _, left, right } => {
            either(has_aggregate(left.get()), has_aggregate(right.get()))
        }
        SqlExpr::IsNull {
            expr: a,
            negated: _,
        } => has_aggregate(a.get()),
        SqlExpr::InList {
            expr: a,
            list,
            negated: _,
        } => either(has_aggregate(a.get()), any_aggregate(list.as_slice())),
        SqlExpr::Between {
            expr: a,
            low,
            high,
            negated: _,
        } => either(
            has_aggregate(a.get()),
            either(has_aggregate(low.get()), has_aggregate(high.get())),
        ),
        SqlExpr::Case { arms, other } => match other {
            None => any_arm_aggregate(arms.as_slice()),
            Some(x) => either(any_arm_aggregate(arms.as_slice()), has_aggregate(x.get())),
        },
        SqlExpr::Cast {
            expr: a,
            kind: _,
            trying: _,
        } => has_aggregate(a.get()),
        SqlExpr::Coalesce(list) => any_aggregate(list.as_slice()),
        SqlExpr::CountAll => true,
        SqlExpr::Count(_) => true,
        SqlExpr::Sum(_) => true,
        SqlExpr::Min(_) => true,
        SqlExpr::Max(_) => true,
    }
}

#[cycle(aggregate)]
fn any_aggregate(list: &[SqlExpr]) -> bool
    ensures { result ≡ spec.any_part (map spec.has_aggregate list.now) }
{
    for tree in list {
        if has_aggregate(tree) {
            return true;
        }
    }
    false
}

#[cycle(aggregate)]
fn any_arm_aggregate(arms: &[SqlArm]) -> bool
    ensures { result ≡ spec.any_part (map spec.arm_has_aggregate arms.now) }
{
    for arm in arms {
        if either(has_aggregate(&arm.when), has_aggregate(&arm.then)) {
            return true;
        }
    }
    false
}

/// Whether an expression is itself an aggregate: count, sum, min or max.
pub fn is_aggregate_call(tree: &SqlExpr) -> bool
    ensures { result ≡ spec.is_aggregate_call tree.now }
{
    match tree {
        SqlExpr::Number(_) => false,
        SqlExpr::Str(_) => false,
        SqlExpr::Bool(_) => false,
        SqlExpr::Null => false,
        SqlExpr::Name(_) => false,
        SqlExpr::Neg(_) => false,
        SqlExpr::Not(_) => false,
        SqlExpr::Binary { .. } => false,
        SqlExpr::IsNull { .. } => false,
        SqlExpr::InList { .. } => false,
        SqlExpr::Between { .. } => false,
        SqlExpr::Case { .. } => false,
        SqlExpr::Cast { .. } => false,
        SqlExpr::Coalesce(_) => false,
        SqlExpr::CountAll => true,
        SqlExpr::Count(_) => true,
        SqlExpr::Sum(_) => true,
        SqlExpr::Min(_) => true,
        SqlExpr::Max(_) => true,
    }
}

fn out_has_aggregate(output: &Out) -> bool
    ensures { result ≡ spec.out_has_aggregate output.now }
{
    match output {
        Out::Star { except: _ } => false,
        Out::One { expr, name: _ } => has_aggregate(expr),
    }
}

fn outs_have_aggregate(outs: &[Out]) -> bool
    ensures { result ≡ list_any spec.out_has_aggregate outs.now }
{
    outs.iter().any(|output| out_has_aggregate(output))
}

fn filter_has_aggregate(filter: &Option<SqlExpr>) -> bool
    ensures { result ≡ spec.filter_has_aggregate filter.now }
{
    match filter {
        None => false,
        Some(tree) => has_aggregate(tree),
    }
}

/// Whether a select has GROUP BY, or an aggregate anywhere in its outputs or in WHERE.
pub fn is_grouped_select(select: &Select) -> bool
    ensures { result ≡ spec.is_grouped_select select.now }
{
    let has_groups = !select.groups.as_slice().is_empty();
    let has_aggregates = outs_have_aggregate(select.outs.as_slice())
        || filter_has_aggregate(&select.filter);
    has_groups || has_aggregates
}
