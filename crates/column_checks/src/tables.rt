//! The columns that a dataset declares beside those that it has.

ghost use Rattle.std.specs.Prelude.{◌≡◌, ◌++◌, IfOk, OnOk, option_to_list};
ghost use Rattle.std.specs.Option.{option_copied};
ghost use Rattle.row_expr.specs.Kinds as kinds;
ghost use Rattle.expr_typing.specs.Typing as typing;
ghost use Rattle.column_checks.specs.Tables as spec;

use sql_tree::{SqlItem, SqlType};
use statement_checks::CheckFault;
use std::alloc::{AllocError, Global};
use value_core::{Column, Kind, ListOf, Name, Schema};

fn kind_of_type(written: SqlType) -> Kind
    ensures { result ≡ typing.kind_of_type written }
{
    match written {
        SqlType::Bool => Kind::Bool,
        SqlType::Int => Kind::Int,
        SqlType::Big => Kind::Big,
        SqlType::Str => Kind::Str,
    }
}

fn column_declared(alloc: Global, item: &SqlItem) -> Result<Option<Column>, AllocError>
    ensures { IfOk result (λ found. found ≡ spec.column_declared item.now) }
{
    match item {
        SqlItem::Column { name, kind } => {
            let name = name.copy(alloc)?;
            let kind = kind_of_type(*kind);
            Ok(Some(Column { name, kind }))
        }
        SqlItem::Expect {
            name: _,
            test: _,
            action: _,
        } => Ok(None),
    }
}

fn add_declared(alloc: Global, columns: &mut Schema, item: &SqlItem) -> Result<(), AllocError>
    ensures { OnOk result (columns.new ≡ columns.old ++ option_to_list (spec.column_declared item.now)) }
{
    let Some(column) = column_declared(alloc, item)? else {
        return Ok(());
    };
    columns.push(column)?;
    Ok(())
}

/// The columns that a dataset declares, in order. Fails for want of memory alone.
pub fn columns_declared(alloc: Global, items: &[SqlItem]) -> Result<Schema, AllocError>
    ensures { IfOk result (λ columns. columns ≡ spec.columns_declared items.now) }
{
    let mut columns = ListOf::new(alloc);
    for item in items {
        add_declared(alloc, &mut columns, item)?;
    }
    Ok(columns)
}

fn is_same_kind(left: Kind, right: Kind) -> bool
    ensures { result ≡ kinds.same_kind left right }
{
    matches!(
        (left, right),
        (Kind::Bool, Kind::Bool)
            | (Kind::Int, Kind::Int)
            | (Kind::Big, Kind::Big)
            | (Kind::Str, Kind::Str)
    )
}

/// Whether two columns have one name, but for the case of ASCII letters, and one kind.
pub(crate) fn is_equal_column(a: &Column, b: &Column) -> bool
    ensures { result ≡ spec.is_equal_column a.now b.now }
{
    a.name.is_same(&b.name) && is_same_kind(a.kind, b.kind)
}

/// The name of the first column of the table that is not the declared one, or of the first one too
/// many on either side.
fn first_unlike<'a>(declared: &'a [Column], table: &'a [Column]) -> Option<&'a Name>
    ensures { option_copied result ≡ spec.first_unlike declared.entry.now table.entry.now }
{
    let mut declared = declared;
    let mut table = table;
    while let Some((wanted, more_wanted)) = declared.split_first() {
        let Some((found, more_found)) = table.split_first() else {
            return Some(&wanted.name);
        };
        if !is_equal_column(wanted, found) {
            return Some(&found.name);
        }
        declared = more_wanted;
        table = more_found;
    }
    let Some(found) = table.first() else {
        return None;
    };
    Some(&found.name)
}

/// SchemaDiffers where a dataset declares columns and does not have them in order: the first column
/// of the dataset that is not the declared one, or the first one too many on either side. Fails for
/// want of memory alone.
pub fn declares_table(
    alloc: Global,
    declared: &[Column],
    table: &[Column],
) -> Result<Option<CheckFault>, AllocError>
    ensures { IfOk result (λ fault. fault ≡ spec.declares_table declared.now table.now) }
{
    if declared.is_empty() {
        return Ok(None);
    }
    let Some(name) = first_unlike(declared, table) else {
        return Ok(None);
    };
    let name = name.copy(alloc)?;
    Ok(Some(CheckFault::SchemaDiffers { name }))
}

/// TooMany where a dataset has more than 256 columns.
pub fn few_in_table(table: &[Column]) -> Option<CheckFault>
    ensures { result ≡ spec.few_in_table table.now }
{
    if table.len() > 256 {
        Some(CheckFault::TooMany { count: 257 })
    } else {
        None
    }
}
