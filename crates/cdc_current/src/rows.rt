// The rows of keys, beside the greatest truncate.
ghost use Rattle.std.specs.Prelude.{◌≡◌, ◌++◌, IfOk, OnOk};
ghost use Rattle.std.specs.Map.{values_of};
ghost use Rattle.cdc_scd1.specs.Stamps.{row_told};
ghost use Rattle.cdc_current.specs.Keeping.{only, own_stamps, rows_under, under};

use crate::keys::KeyState;
use std::alloc::{AllocError, Global};
use std::collections::BTreeMap;
use value_core::{ListOf, Row, Rows};

/// The row of a key, if it has one.
pub(crate) fn row_of(
    alloc: Global,
    truncated: &Option<Row>,
    keys: &BTreeMap<Row, KeyState>,
    key: &Row,
) -> Result<Option<Row>, AllocError>
    ensures { IfOk result (λ row. row ≡ row_told (under truncated.now (own_stamps key.now keys.now.entries))) }
{
    match keys.get(key) {
        Some(state) => {
            let row = state.row(alloc, truncated)?;
            Ok(row)
        }
        None => Ok(None),
    }
}

/// Puts a row behind others, if there is one.
fn put_row(rows: &mut Rows, row: Option<Row>) -> Result<(), AllocError>
    ensures { OnOk result (rows.new ≡ rows.old ++ only row) }
{
    if let Some(row) = row {
        rows.push(row)?;
    }
    Ok(())
}

/// A row as a list, if there is one.
pub(crate) fn one_row(alloc: Global, row: Option<Row>) -> Result<Rows, AllocError>
    ensures { IfOk result (λ rows. rows ≡ only row) }
{
    let mut rows: Rows = ListOf::new(alloc);
    put_row(&mut rows, row)?;
    Ok(rows)
}

/// The rows of all keys, in the order of these.
pub(crate) fn all_rows(
    alloc: Global,
    truncated: &Option<Row>,
    keys: &BTreeMap<Row, KeyState>,
) -> Result<Rows, AllocError>
    ensures { IfOk result (λ rows. rows ≡ rows_under truncated.now (values_of keys.now.entries)) }
{
    let mut rows: Rows = ListOf::new(alloc);
    for state in keys.values() {
        let row = state.row(alloc, truncated)?;
        put_row(&mut rows, row)?;
    }
    Ok(rows)
}
