// Rows and changes that are copied, and the looks that are counted.
ghost use Rattle.std.specs.Prelude.{◌≡◌, ◌+◌, ◌++◌, length, IfOk, OnOk};
ghost use Rattle.value_core.specs.Bags.{IsInOrder, net_change};
ghost use Rattle.net_changes.specs.Chains.{Follow, all_added, all_removed, content_after};
ghost use Rattle.table_versions.specs.Versions.{rows_in};

use net_changes::net;
use std::alloc::{AllocError, Global};
use std::sync::ledger::Ledger;
use value_core::{Change, Changes, ListOf, Row, Rows, Steps};

/// Counts one look a row.
pub(crate) fn count_rows<L: Ledger>(rows: &[Row], steps: &mut Steps<L>)
    ensures { steps.new ≡ steps.old + length rows.now }
{
    for _row in rows {
        steps.tick();
    }
}

/// Counts one look for each row that changes remove or add.
pub(crate) fn count_changes<L: Ledger>(changes: &[Change], steps: &mut Steps<L>)
    ensures { steps.new ≡ steps.old + rows_in changes.now }
{
    for change in changes {
        count_rows(change.removed.as_slice(), steps);
        count_rows(change.added.as_slice(), steps);
    }
}

// Puts copies of rows behind others.
fn put_rows(alloc: Global, into: &mut Rows, rows: &[Row]) -> Result<(), AllocError>
    ensures { OnOk result (into.new ≡ into.old ++ rows.now) }
{
    for row in rows {
        into.push(row.copy(alloc)?)?;
    }
    Ok(())
}

// Puts copies of all rows that changes add behind others.
fn put_added(alloc: Global, into: &mut Rows, changes: &[Change]) -> Result<(), AllocError>
    ensures { OnOk result (into.new ≡ into.old ++ all_added changes.now) }
{
    for change in changes {
        put_rows(alloc, into, change.added.as_slice())?;
    }
    Ok(())
}

// Copies of all rows that changes remove.
fn removed_by(alloc: Global, changes: &[Change]) -> Result<Rows, AllocError>
    ensures { IfOk result (λ rows. rows ≡ all_removed changes.now) }
{
    let mut rows: Rows = ListOf::new(alloc);
    for change in changes {
        put_rows(alloc, &mut rows, change.removed.as_slice())?;
    }
    Ok(rows)
}

/// Copies of changes.
pub(crate) fn copies_of(alloc: Global, changes: &[Change]) -> Result<Changes, AllocError>
    ensures { IfOk result (λ copies. copies ≡ changes.now) }
{
    let mut copies: Changes = ListOf::new(alloc);
    for change in changes {
        copies.push(change.copy(alloc)?)?;
    }
    Ok(copies)
}

/// The one change that these come to.
pub(crate) fn net_of(alloc: Global, changes: &[Change]) -> Result<Change, AllocError>
    ensures { IfOk result (λ change. change ≡ net_change (all_removed changes.now) (all_added changes.now)) }
{
    let mut added: Rows = ListOf::new(alloc);
    put_added(alloc, &mut added, changes)?;
    let removed = removed_by(alloc, changes)?;
    let change = net(alloc, removed, added)?;
    Ok(change)
}

/// The rows after changes, one after another: what is left of the rows and of all that is added when all that is
/// removed is taken out.
pub(crate) fn content_of(alloc: Global, rows: &Rows, changes: &[Change]) -> Result<Rows, AllocError>
    requires order { IsInOrder rows.now }
    requires follow { Follow rows.now changes.now }
    ensures { IfOk result (λ content. content ≡ content_after rows.now changes.now) }
{
    let mut there = rows.copy(alloc)?;
    put_added(alloc, &mut there, changes)?;
    let gone = removed_by(alloc, changes)?;
    let Change { added, .. } = net(alloc, gone, there)?;
    Ok(added)
}
