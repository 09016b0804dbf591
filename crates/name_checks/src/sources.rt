//! The datasets that a statement fills and reads.

ghost use Rattle.std.specs.Prelude.{◌≡◌};
ghost use Rattle.std.specs.Option.{option_copied};
ghost use Rattle.name_checks.specs.Sources as spec;

use sql_tree::{SqlOrigin, Statement};
use value_core::Name;

/// The name of the view that a statement declares.
pub(crate) fn view_name(statement: &Statement) -> Option<&Name>
    ensures { option_copied result ≡ spec.view_name statement.now }
{
    match statement {
        Statement::View {
            name,
            items: _,
            select: _,
        } => Some(name),
        _ => None,
    }
}

/// The name of the dataset that a flow of its own fills (Databricks SQL reference, CREATE FLOW).
pub fn target_name(statement: &Statement) -> Option<&Name>
    ensures { option_copied result ≡ spec.target_name statement.now }
{
    match statement {
        Statement::Insert {
            flow: _,
            target,
            select: _,
        } => Some(target),
        Statement::Cdc { flow: _, rest } => Some(&rest.target),
        _ => None,
    }
}

/// The name of the dataset that is filled, by its own query or by a flow.
pub fn reader_name(statement: &Statement) -> Option<&Name>
    ensures { option_copied result ≡ spec.reader_name statement.now }
{
    match statement {
        Statement::Table {
            name,
            items: _,
            select: _,
        } => Some(name),
        Statement::View {
            name,
            items: _,
            select: _,
        } => Some(name),
        Statement::Insert {
            flow: _,
            target,
            select: _,
        } => Some(target),
        Statement::Cdc { flow: _, rest } => Some(&rest.target),
    }
}

fn origin_name(origin: &SqlOrigin) -> Option<&Name>
    ensures { option_copied result ≡ spec.origin_name origin.now }
{
    match origin {
        SqlOrigin::Table { stream: _, name } => Some(name),
        SqlOrigin::Files {
            stream: _,
            path: _,
            options: _,
        } => None,
    }
}

/// The name of the dataset that a statement reads; none where it reads files, or nothing.
pub fn source_name(statement: &Statement) -> Option<&Name>
    ensures { option_copied result ≡ spec.source_name statement.now }
{
    match statement {
        Statement::Table {
            name: _,
            items: _,
            select,
        } => match select {
            Some(select) => origin_name(&select.origin),
            None => None,
        },
        Statement::View {
            name: _,
            items: _,
            select,
        } => origin_name(&select.origin),
        Statement::Insert {
            flow: _,
            target: _,
            select,
        } => origin_name(&select.origin),
        Statement::Cdc { flow: _, rest } => origin_name(&rest.origin),
    }
}
