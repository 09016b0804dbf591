use crate::{
    columns_declared, declares_table, few_in_table, gives_table, items_at, places_by_name,
};
use sql_tree::{SqlItem, SqlItems, SqlType};
use statement_checks::CheckFault;
use std::alloc::{AllocError, Global};
use std::test::Fail;
use value_core::{Column, Kind, ListOf, Name, Schema};

// Columns of these names, all of this kind.
fn columns(alloc: Global, names: &[&str], kind: Kind) -> Result<Schema, AllocError> {
    let mut columns = ListOf::new(alloc);
    for name in names {
        let name = Name::new(alloc, name)?;
        columns.push(Column { name, kind })?;
    }
    Ok(columns)
}

fn is_unlike(fault: Option<CheckFault>, wanted: &str) -> bool {
    match fault {
        Some(CheckFault::SchemaDiffers { name }) => name.as_str() == wanted,
        _ => false,
    }
}

// The first difference of declared columns from those of a table.
fn declared(
    alloc: Global,
    declared: &[&str],
    table: &[&str],
) -> Result<Option<CheckFault>, AllocError> {
    let declared = columns(alloc, declared, Kind::Int)?;
    let table = columns(alloc, table, Kind::Int)?;
    declares_table(alloc, declared.as_slice(), table.as_slice())
}

#[test]
fn declared_columns_in_order(rt: HostRuntime) -> Result<(), Fail> {
    let alloc = rt.alloc();
    assert!(rt; declared(alloc, &["A", "b"], &["a", "B"])?.is_none());
    assert!(rt; is_unlike(declared(alloc, &["a", "b"], &["b", "a"])?, "b"));
    assert!(rt; is_unlike(declared(alloc, &["a"], &["a", "c"])?, "c"));
    assert!(rt; is_unlike(declared(alloc, &["a", "d"], &["a"])?, "d"));
    Ok(())
}

// What a flow that gives these columns lacks of a table.
fn given(alloc: Global, table: &[&str], given: &[&str]) -> Result<Option<CheckFault>, AllocError> {
    let table = columns(alloc, table, Kind::Int)?;
    let given = columns(alloc, given, Kind::Int)?;
    gives_table(alloc, table.as_slice(), given.as_slice())
}

#[test]
fn columns_by_name(rt: HostRuntime) -> Result<(), Fail> {
    let alloc = rt.alloc();
    assert!(rt; given(alloc, &["a", "b"], &["B", "a"])?.is_none());
    assert!(rt; is_unlike(given(alloc, &["a", "b"], &["a", "c"])?, "b"));
    assert!(rt; is_unlike(given(alloc, &["a"], &["c", "a"])?, "c"));
    Ok(())
}

// The items 10, 20, .. of a flow that gives these columns, in the order of the table's.
fn ordered(alloc: Global, table: &[&str], given: &[&str]) -> Result<Vec<u32>, AllocError> {
    let table = columns(alloc, table, Kind::Int)?;
    let given = columns(alloc, given, Kind::Int)?;
    let places = places_by_name(alloc, table.as_slice(), given.as_slice())?;
    let items = Vec::from_slice(alloc, &[10, 20, 30])?;
    items_at(alloc, items, places.as_slice())
}

#[test]
fn items_by_name(rt: HostRuntime) -> Result<(), Fail> {
    let found = ordered(rt.alloc(), &["c", "a", "b"], &["a", "b", "C"])?;
    assert!(rt; found.as_slice() == [30, 10, 20].as_slice());
    Ok(())
}

fn one_item(alloc: Global) -> Result<SqlItems, AllocError> {
    let name = Name::new(alloc, "a")?;
    let mut items = SqlItems::new(alloc);
    items.push(SqlItem::Column {
        name,
        kind: SqlType::Big,
    })?;
    Ok(items)
}

#[test]
fn declared_kinds(rt: HostRuntime) -> Result<(), Fail> {
    let alloc = rt.alloc();
    let items = one_item(alloc)?;
    let found = columns_declared(alloc, items.as_slice())?;
    let wanted = columns(alloc, &["a"], Kind::Big)?;
    assert!(rt; declares_table(alloc, wanted.as_slice(), found.as_slice())?.is_none());
    assert!(rt; few_in_table(found.as_slice()).is_none());
    Ok(())
}
