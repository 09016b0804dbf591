//! What a statement declares.

ghost use Rattle.std.specs.Prelude.{◌≡◌};
ghost use Rattle.std.specs.Option.{option_copied};
ghost use Rattle.statement_checks.specs.Declares as spec;
ghost use Rattle.statement_checks.specs.Limits as limits;

use sql_tree::{Out, SqlItem, SqlSequence, SqlSome, Statement};
use value_core::Name;

/// The name of the dataset that a statement declares (Databricks SQL reference, CREATE STREAMING
/// TABLE and CREATE MATERIALIZED VIEW).
pub fn dataset_name(statement: &Statement) -> Option<&Name>
    ensures { option_copied result ≡ spec.dataset_name statement.now }
{
    match statement {
        Statement::Table {
            name,
            items: _,
            select: _,
        } => Some(name),
        Statement::View {
            name,
            items: _,
            select: _,
        } => Some(name),
        Statement::Insert {
            flow: _,
            target: _,
            select: _,
        } => None,
        Statement::Cdc { flow: _, rest: _ } => None,
    }
}

/// The name of the flow that a statement declares: a streaming table with AS has one of its own
/// name (Databricks SQL reference, CREATE FLOW).
pub fn flow_name(statement: &Statement) -> Option<&Name>
    ensures { option_copied result ≡ spec.flow_name statement.now }
{
    match statement {
        Statement::Table {
            name,
            items: _,
            select,
        } => match select {
            Some(_) => Some(name),
            None => None,
        },
        Statement::View {
            name: _,
            items: _,
            select: _,
        } => None,
        Statement::Insert {
            flow,
            target: _,
            select: _,
        } => Some(flow),
        Statement::Cdc { flow, rest: _ } => Some(flow),
    }
}

/// Whether a statement declares a dataset.
pub(crate) fn is_dataset(statement: &Statement) -> bool
    ensures { result ≡ limits.is_dataset statement.now }
{
    dataset_name(statement).is_some()
}

/// Whether a statement declares a flow.
pub(crate) fn is_flow(statement: &Statement) -> bool
    ensures { result ≡ limits.is_flow statement.now }
{
    flow_name(statement).is_some()
}

/// The columns and expectations that a statement declares.
pub(crate) fn items_of(statement: &Statement) -> &[SqlItem]
    ensures { result.now ≡ spec.items_of statement.now }
{
    match statement {
        Statement::Table {
            name: _,
            items,
            select: _,
        } => items.as_slice(),
        Statement::View {
            name: _,
            items,
            select: _,
        } => items.as_slice(),
        Statement::Insert {
            flow: _,
            target: _,
            select: _,
        } => &[],
        Statement::Cdc { flow: _, rest: _ } => &[],
    }
}

/// Whether a column is declared.
pub(crate) fn is_column(item: &SqlItem) -> bool
    ensures { result ≡ spec.is_column item.now }
{
    match item {
        SqlItem::Column { name: _, kind: _ } => true,
        SqlItem::Expect {
            name: _,
            test: _,
            action: _,
        } => false,
    }
}

/// The name of a declared column or expectation.
pub(crate) fn item_name(item: &SqlItem) -> &Name
    ensures { result.now ≡ spec.item_name item.now }
{
    match item {
        SqlItem::Column { name, kind: _ } => name,
        SqlItem::Expect {
            name,
            test: _,
            action: _,
        } => name,
    }
}

/// The names in KEYS.
pub(crate) fn keys_of(statement: &Statement) -> &[Name]
    ensures { result.now ≡ spec.keys_of statement.now }
{
    match statement {
        Statement::Cdc { flow: _, rest } => rest.keys.as_slice(),
        _ => &[],
    }
}

/// The names in STRUCT.
pub(crate) fn struct_names(sequence: &SqlSequence) -> &[Name]
    ensures { result.now ≡ spec.struct_names sequence.now }
{
    match sequence {
        SqlSequence::One(_) => &[],
        SqlSequence::Struct(names) => names.as_slice(),
    }
}

/// The parts of a sequence of several.
pub(crate) fn parts_of(statement: &Statement) -> &[Name]
    ensures { result.now ≡ spec.parts_of statement.now }
{
    match statement {
        Statement::Cdc { flow: _, rest } => struct_names(&rest.sequence),
        _ => &[],
    }
}

/// The names behind COLUMNS or TRACK HISTORY ON.
pub(crate) fn some_names(list: &Option<SqlSome>) -> &[Name]
    ensures { result.now ≡ spec.some_names list.now }
{
    match list {
        None => &[],
        Some(SqlSome::Except(names)) => names.as_slice(),
        Some(SqlSome::Only(names)) => names.as_slice(),
    }
}

/// The names behind EXCEPT in an output.
pub(crate) fn except_names(output: &Out) -> &[Name]
    ensures { result.now ≡ spec.except_names output.now }
{
    match output {
        Out::Star { except } => except.as_slice(),
        Out::One { expr: _, name: _ } => &[],
    }
}
