ghost use Rattle.std.specs.Prelude.{◌≡◌, ◌++◌, IfOk, OnOk};
ghost use Rattle.value_core.specs.Bags.{IsInOrder, SameBag, net_change};

use std::alloc::{AllocError, Global};
use std::cmp::Ordering;
use value_core::{Change, ListOf, Row, Rows};

/// The least change that makes one bag of rows the other: what the old one holds oftener goes, what the new one holds
/// oftener comes. `Err` for want of memory alone.
pub fn net(alloc: Global, old: Rows, new: Rows) -> Result<Change, AllocError>
    ensures { IfOk result (λ change. change ≡ net_change old new) }
{
    let left = in_order(old)?;
    let right = in_order(new)?;
    let change = net_in_order(alloc, left.as_slice(), right.as_slice())?;
    Ok(change)
}

/// The rows in row order. A list that is in order stays as it is, in one walk along it.
fn in_order(rows: Rows) -> Result<Rows, AllocError>
    ensures sorted { IfOk result (λ sorted. IsInOrder sorted) }
    ensures held { IfOk result (λ sorted. SameBag sorted rows) }
{
    if rows.is_in_order() {
        return Ok(rows);
    }
    let mut items = rows.into_vec();
    items.sort()?;
    Ok(ListOf::from_vec(items))
}

/// The net change of two lists in row order. It goes through both once.
fn net_in_order(alloc: Global, left: &[Row], right: &[Row]) -> Result<Change, AllocError>
    requires left { IsInOrder left.now }
    requires right { IsInOrder right.now }
    ensures { IfOk result (λ change. change ≡ net_change left.now right.now) }
{
    let mut removed: Rows = ListOf::new(alloc);
    let mut added: Rows = ListOf::new(alloc);
    let mut old = left;
    let mut new = right;
    while let Some((x, xs)) = old.split_first() {
        let Some((y, ys)) = new.split_first() else {
            put_rows(alloc, &mut removed, old)?;
            return Ok(Change { removed, added });
        };
        match x.cmp(y) {
            Ordering::Less => {
                removed.push(x.copy(alloc)?)?;
                old = xs;
            }
            Ordering::Greater => {
                added.push(y.copy(alloc)?)?;
                new = ys;
            }
            Ordering::Equal => {
                old = xs;
                new = ys;
            }
        }
    }
    put_rows(alloc, &mut added, new)?;
    Ok(Change { removed, added })
}

/// Puts copies of rows behind others.
fn put_rows(alloc: Global, into: &mut Rows, rows: &[Row]) -> Result<(), AllocError>
    ensures { OnOk result (into.new ≡ into.old ++ rows.now) }
{
    for row in rows {
        into.push(row.copy(alloc)?)?;
    }
    Ok(())
}
