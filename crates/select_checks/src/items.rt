//! The items of a view.

ghost use Rattle.std.specs.Prelude.{◌≡◌, ◌++◌, [], List, ℕ, Option, Some, true, IfOk, OnOk, map, is_some, slice_get, option_map, option_and_then, option_to_list};
ghost use Rattle.std.specs.List.{list_all};
ghost use Rattle.std.specs.Option.{option_copied};
ghost use Rattle.plan_core.specs.declared.query.Item.TheVariants as item;
ghost use Rattle.plan_core.specs.Sound as sound;
ghost use Rattle.row_expr.specs.Columns.{reads_within};
ghost use Rattle.row_expr.specs.Kinds as kinds;
ghost use Rattle.sql_tree.specs.declared.statement.Out.TheVariants as out;
ghost use Rattle.tree_equality.specs.TreeCodes.{equal_place};
ghost use Rattle.select_checks.specs.Kinded as kinded;
ghost use Rattle.select_checks.specs.Views as spec;

use crate::kinded::{KindedExpr, kinded_tree, typed_tree};
use crate::outputs::{SelectOutput, SelectOutputs};
use plan_core::{Exprs, Item, Items};
use row_expr::Expr;
use row_expr::sort::{Sort, number, sort_of};
use select_names::{is_aggregate_call, out_name};
use sql_tree::{Out, SqlExpr};
use sqlite_items::Boxed;
use std::alloc::{AllocError, Global};
use tree_equality::TreeTable;
use value_core::{Column, Kind, ListOf, Name, Schema};

/// An item of a view and its kind.
#[derive(Debug, Drop)]
pub struct KindedItem {
    pub item: Boxed<Item>,
    pub kind: Kind,
}

/// A column that is given, and the item of a view that gives it.
#[derive(Debug, Drop)]
pub struct ItemOutput {
    pub column: Column,
    pub item: Boxed<Item>,
}

/// Outputs of a view in order.
pub type ItemOutputs = ListOf<ItemOutput>;

// ---- aggregates

fn of_kind(alloc: Global, given: Item, kind: Kind) -> Result<Option<KindedItem>, AllocError>
    ensures { IfOk result (λ found. found ≡ Some (spec.of_item_kind given kind)) }
{
    let item = Boxed::new(alloc, given)?;
    Ok(Some(KindedItem { item, kind }))
}

fn is_number(sort: Sort) -> bool
    ensures { result ≡ is_some (kinds.kind_in (kinds.number sort)) }
{
    matches!(number(sort), Sort::Of(_))
}

/// `count` of a typed operand: a BIGINT, whatever its kind.
fn counted(
    alloc: Global,
    source: &Schema,
    made: Boxed<Expr>,
) -> Result<Option<KindedItem>, AllocError>
    requires reads { reads_within (sound.kinds_of source.now) made ≡ true }
    requires formed { kinds.is_formed (kinds.sort_of made) ≡ true }
    ensures { IfOk result (λ found. found ≡ spec.kinded_item source.now [] (item.Count made)) }
{
    of_kind(alloc, Item::Count(made.into_inner()), Kind::Big)
}

/// `sum` of a typed operand: a BIGINT, where that is INT or BIGINT.
fn summed(
    alloc: Global,
    source: &Schema,
    made: Boxed<Expr>,
) -> Result<Option<KindedItem>, AllocError>
    requires reads { reads_within (sound.kinds_of source.now) made ≡ true }
    ensures { IfOk result (λ found. found ≡ spec.kinded_item source.now [] (item.Sum made)) }
{
    if !is_number(sort_of(made.get())) {
        return Ok(None);
    }
    of_kind(alloc, Item::Sum(made.into_inner()), Kind::Big)
}

/// `min` of a typed operand, where it has a kind.
fn least(
    alloc: Global,
    source: &Schema,
    made: Boxed<Expr>,
) -> Result<Option<KindedItem>, AllocError>
    requires reads { reads_within (sound.kinds_of source.now) made ≡ true }
    ensures { IfOk result (λ found. found ≡ spec.kinded_item source.now [] (item.Min made)) }
{
    let Some(kind) = made.get().kind() else {
        return Ok(None);
    };
    of_kind(alloc, Item::Min(made.into_inner()), kind)
}

/// `max` of a typed operand, where it has a kind.
fn greatest(
    alloc: Global,
    source: &Schema,
    made: Boxed<Expr>,
) -> Result<Option<KindedItem>, AllocError>
    requires reads { reads_within (sound.kinds_of source.now) made ≡ true }
    ensures { IfOk result (λ found. found ≡ spec.kinded_item source.now [] (item.Max made)) }
{
    let Some(kind) = made.get().kind() else {
        return Ok(None);
    };
    of_kind(alloc, Item::Max(made.into_inner()), kind)
}

fn count_of(
    alloc: Global,
    source: &Schema,
    operand: &SqlExpr,
) -> Result<Option<KindedItem>, AllocError>
    ensures { IfOk result (λ found. found ≡ option_and_then (spec.kinded_item source.now []) (option_map item.Count (kinded.typed_tree source.now operand.now))) }
{
    let Some(made) = typed_tree(alloc, source, operand)? else {
        return Ok(None);
    };
    counted(alloc, source, made)
}

fn sum_of(
    alloc: Global,
    source: &Schema,
    operand: &SqlExpr,
) -> Result<Option<KindedItem>, AllocError>
    ensures { IfOk result (λ found. found ≡ option_and_then (spec.kinded_item source.now []) (option_map item.Sum (kinded.typed_tree source.now operand.now))) }
{
    let Some(made) = typed_tree(alloc, source, operand)? else {
        return Ok(None);
    };
    summed(alloc, source, made)
}

fn min_of(
    alloc: Global,
    source: &Schema,
    operand: &SqlExpr,
) -> Result<Option<KindedItem>, AllocError>
    ensures { IfOk result (λ found. found ≡ option_and_then (spec.kinded_item source.now []) (option_map item.Min (kinded.typed_tree source.now operand.now))) }
{
    let Some(made) = typed_tree(alloc, source, operand)? else {
        return Ok(None);
    };
    least(alloc, source, made)
}

fn max_of(
    alloc: Global,
    source: &Schema,
    operand: &SqlExpr,
) -> Result<Option<KindedItem>, AllocError>
    ensures { IfOk result (λ found. found ≡ option_and_then (spec.kinded_item source.now []) (option_map item.Max (kinded.typed_tree source.now operand.now))) }
{
    let Some(made) = typed_tree(alloc, source, operand)? else {
        return Ok(None);
    };
    greatest(alloc, source, made)
}

/// The aggregate that an expression is, with its kind; `None` where it is none or its operand has no
/// kind that it takes.
pub fn kinded_aggregate(
    alloc: Global,
    source: &Schema,
    tree: &SqlExpr,
) -> Result<Option<KindedItem>, AllocError>
    ensures { IfOk result (λ found. found ≡ spec.kinded_aggregate source.now tree.now) }
{
    match tree {
        SqlExpr::CountAll => of_kind(alloc, Item::CountAll, Kind::Big),
        SqlExpr::Count(a) => count_of(alloc, source, a.get()),
        SqlExpr::Sum(a) => sum_of(alloc, source, a.get()),
        SqlExpr::Min(a) => min_of(alloc, source, a.get()),
        SqlExpr::Max(a) => max_of(alloc, source, a.get()),
        SqlExpr::Number(_) => Ok(None),
        SqlExpr::Str(_) => Ok(None),
        SqlExpr::Bool(_) => Ok(None),
        SqlExpr::Null => Ok(None),
        SqlExpr::Name(_) => Ok(None),
        SqlExpr::Neg(_) => Ok(None),
        SqlExpr::Not(_) => Ok(None),
        SqlExpr::Binary { .. } => Ok(None),
        SqlExpr::IsNull { .. } => Ok(None),
        SqlExpr::InList { .. } => Ok(None),
        SqlExpr::Between { .. } => Ok(None),
        SqlExpr::Case { .. } => Ok(None),
        SqlExpr::Cast { .. } => Ok(None),
        SqlExpr::Coalesce(_) => Ok(None),
    }
}

// ---- groups

/// GROUP BY over the columns that are read, each group with its kind.
pub type KindedExprs = ListOf<KindedExpr>;

fn add_group(
    alloc: Global,
    groups: &mut KindedExprs,
    source: &Schema,
    tree: &SqlExpr,
) -> Result<(), AllocError>
    ensures { OnOk result (groups.new ≡ groups.old ++ option_to_list (kinded.kinded_tree source.now tree.now)) }
{
    let Some(group) = kinded_tree(alloc, source, tree)? else {
        return Ok(());
    };
    groups.push(group)?;
    Ok(())
}

/// The groups that have a kind, in order.
pub fn groups_over(
    alloc: Global,
    source: &Schema,
    trees: &[SqlExpr],
) -> Result<KindedExprs, AllocError>
    ensures { IfOk result (λ groups. groups ≡ spec.groups_over source.now trees.now) }
{
    let mut groups = ListOf::new(alloc);
    for tree in trees {
        add_group(alloc, &mut groups, source, tree)?;
    }
    Ok(groups)
}

/// The expressions of groups.
pub fn group_exprs(alloc: Global, groups: KindedExprs) -> Result<Exprs, AllocError>
    ensures { IfOk result (λ exprs. exprs ≡ spec.group_exprs groups) }
{
    let mut exprs = ListOf::new(alloc);
    for group in groups.into_vec() {
        exprs.push(group.expr.into_inner())?;
    }
    Ok(exprs)
}

/// The kind of the group at a place.
fn kind_at(groups: &[KindedExpr], place: u32) -> Option<Kind>
    ensures { result ≡ slice_get (spec.group_kinds groups.now) place }
{
    let Some(group) = groups.get(place as usize) else {
        return None;
    };
    Some(group.kind)
}

fn kinded_key(
    alloc: Global,
    source: &Schema,
    groups: &[KindedExpr],
    place: u32,
) -> Result<Option<KindedItem>, AllocError>
    ensures { IfOk result (λ found. found ≡ spec.kinded_key source.now (spec.group_kinds groups.now) place) }
{
    let Some(kind) = kind_at(groups, place) else {
        return Ok(None);
    };
    of_kind(alloc, Item::Key(place), kind)
}

fn group_item(
    alloc: Global,
    source: &Schema,
    table: &TreeTable<'_>,
    groups: &[KindedExpr],
    tree: &SqlExpr,
) -> Result<Option<KindedItem>, AllocError>
    ensures { IfOk result (λ found. found ≡ option_and_then (spec.kinded_key source.now (spec.group_kinds groups.now)) (equal_place table.now tree.now)) }
{
    let Some(place) = table.place(alloc, tree)? else {
        return Ok(None);
    };
    kinded_key(alloc, source, groups, place)
}

fn grouped_item(
    alloc: Global,
    source: &Schema,
    table: &TreeTable<'_>,
    groups: &[KindedExpr],
    tree: &SqlExpr,
) -> Result<Option<KindedItem>, AllocError>
    ensures { IfOk result (λ found. found ≡ spec.grouped_item source.now table.now (spec.group_kinds groups.now) tree.now) }
{
    if is_aggregate_call(tree) {
        kinded_aggregate(alloc, source, tree)
    } else {
        group_item(alloc, source, table, groups, tree)
    }
}

fn named_item(
    alloc: Global,
    name: Option<&Name>,
    given: KindedItem,
) -> Result<Option<ItemOutput>, AllocError>
    ensures { IfOk result (λ output. output ≡ option_map (spec.item_output given) (option_copied name.entry)) }
{
    let Some(name) = name else {
        return Ok(None);
    };
    let name = name.copy(alloc)?;
    let KindedItem { item, kind } = given;
    Ok(Some(ItemOutput {
        column: Column { name, kind },
        item,
    }))
}

fn one_grouped(
    alloc: Global,
    source: &Schema,
    table: &TreeTable<'_>,
    groups: &[KindedExpr],
    tree: &SqlExpr,
    own: &Option<Name>,
) -> Result<Option<ItemOutput>, AllocError>
    ensures { IfOk result (λ output. output ≡ spec.grouped_output source.now table.now (spec.group_kinds groups.now) (out.One tree.now own.now)) }
{
    let Some(given) = grouped_item(alloc, source, table, groups, tree)? else {
        return Ok(None);
    };
    named_item(alloc, out_name(source.as_slice(), tree, own), given)
}

fn grouped_output(
    alloc: Global,
    source: &Schema,
    table: &TreeTable<'_>,
    groups: &[KindedExpr],
    given: &Out,
) -> Result<Option<ItemOutput>, AllocError>
    ensures { IfOk result (λ output. output ≡ spec.grouped_output source.now table.now (spec.group_kinds groups.now) given.now) }
{
    match given {
        Out::Star { except: _ } => Ok(None),
        Out::One { expr, name } => one_grouped(alloc, source, table, groups, expr, name),
    }
}

fn add_grouped(
    alloc: Global,
    outputs: &mut ItemOutputs,
    source: &Schema,
    table: &TreeTable<'_>,
    groups: &[KindedExpr],
    given: &Out,
) -> Result<(), AllocError>
    ensures { OnOk result (outputs.new ≡ outputs.old ++ option_to_list (spec.grouped_output source.now table.now (spec.group_kinds groups.now) given.now)) }
{
    let Some(output) = grouped_output(alloc, source, table, groups, given)? else {
        return Ok(());
    };
    outputs.push(output)?;
    Ok(())
}

/// What the outputs of a query with groups or aggregates give, in order.
pub fn grouped_outputs(
    alloc: Global,
    source: &Schema,
    table: &TreeTable<'_>,
    groups: &[KindedExpr],
    outs: &[Out],
) -> Result<ItemOutputs, AllocError>
    ensures { IfOk result (λ outputs. outputs ≡ spec.grouped_outputs source.now table.now (spec.group_kinds groups.now) outs.now) }
{
    let mut outputs = ListOf::new(alloc);
    for given in outs {
        add_grouped(alloc, &mut outputs, source, table, groups, given)?;
    }
    Ok(outputs)
}

// ---- any query

fn plain_output(alloc: Global, output: SelectOutput) -> Result<ItemOutput, AllocError>
    ensures { IfOk result (λ made. made ≡ spec.plain_output output) }
{
    let SelectOutput { column, expr } = output;
    let item = Boxed::new(alloc, Item::Plain(expr.into_inner()))?;
    Ok(ItemOutput { column, item })
}

/// Outputs as the items of a query without groups and aggregates.
pub fn plain_outputs(alloc: Global, outputs: SelectOutputs) -> Result<ItemOutputs, AllocError>
    ensures { IfOk result (λ made. made ≡ map spec.plain_output outputs) }
{
    let mut made = ListOf::new(alloc);
    for output in outputs.into_vec() {
        made.push(plain_output(alloc, output)?)?;
    }
    Ok(made)
}

/// The columns that items give.
pub fn item_columns(alloc: Global, outputs: &[ItemOutput]) -> Result<Schema, AllocError>
    ensures { IfOk result (λ columns. columns ≡ spec.item_columns outputs.now) }
{
    let mut columns = ListOf::new(alloc);
    for output in outputs {
        columns.push(output.column.copy(alloc)?)?;
    }
    Ok(columns)
}

/// The items that outputs give.
pub fn items_given(alloc: Global, outputs: ItemOutputs) -> Result<Items, AllocError>
    ensures { IfOk result (λ items. items ≡ spec.items_given outputs) }
{
    let mut items = ListOf::new(alloc);
    for output in outputs.into_vec() {
        items.push(output.item.into_inner())?;
    }
    Ok(items)
}

// ---- kinds

fn is_kinded_tree(alloc: Global, source: &Schema, tree: &SqlExpr) -> Result<bool, AllocError>
    ensures { IfOk result (λ is. is ≡ spec.is_kinded_tree source.now tree.now) }
{
    let found = kinded_tree(alloc, source, tree)?;
    Ok(found.is_some())
}

fn is_kinded_aggregate(alloc: Global, source: &Schema, tree: &SqlExpr) -> Result<bool, AllocError>
    ensures { IfOk result (λ is. is ≡ is_some (spec.kinded_aggregate source.now tree.now)) }
{
    let found = kinded_aggregate(alloc, source, tree)?;
    Ok(found.is_some())
}

fn tree_has_kind(alloc: Global, source: &Schema, tree: &SqlExpr) -> Result<bool, AllocError>
    ensures { IfOk result (λ has. has ≡ spec.is_kinded_item source.now tree.now) }
{
    if is_aggregate_call(tree) {
        is_kinded_aggregate(alloc, source, tree)
    } else {
        is_kinded_tree(alloc, source, tree)
    }
}

fn has_item_kind(alloc: Global, source: &Schema, given: &Out) -> Result<bool, AllocError>
    ensures { IfOk result (λ has. has ≡ spec.has_item_kind source.now given.now) }
{
    match given {
        Out::Star { except: _ } => Ok(true),
        Out::One { expr, name: _ } => tree_has_kind(alloc, source, expr),
    }
}

/// Whether each output, where it is an aggregate or another expression, has a kind.
pub fn have_item_kinds(alloc: Global, source: &Schema, outs: &[Out]) -> Result<bool, AllocError>
    ensures { IfOk result (λ have. have ≡ list_all (spec.has_item_kind source.now) outs.now) }
{
    for given in outs {
        if !has_item_kind(alloc, source, given)? {
            return Ok(false);
        }
    }
    Ok(true)
}

/// Whether each group has a kind.
pub fn are_kinded_trees(
    alloc: Global,
    source: &Schema,
    trees: &[SqlExpr],
) -> Result<bool, AllocError>
    ensures { IfOk result (λ are. are ≡ list_all (spec.is_kinded_tree source.now) trees.now) }
{
    for tree in trees {
        if !is_kinded_tree(alloc, source, tree)? {
            return Ok(false);
        }
    }
    Ok(true)
}
