// The shares that leave each group and those that join it.
ghost use Rattle.std.specs.Prelude.{◌≡◌, ◌+◌, ◌≤◌, ◌++◌, ◌∷◌, [], List, length, None, IfOk, OnOk};
ghost use Rattle.std.specs.BTreeMap.{IsOrdered};
ghost use Rattle.value_core.specs.Order.{row_order};
ghost use Rattle.flow_model.specs.Views as views;
ghost use Rattle.view_groups.specs.AllGroups.{first_fault};
ghost use Rattle.view_groups.specs.Shares.{seen};
ghost use Rattle.view_patches.specs.Patches.{WithoutPatch, PatchFrom, PatchesFor, PatchesAnswer};

use plan_core::{Query, Stop, StopOr};
use std::alloc::{AllocError, Global};
use std::collections::BTreeMap;
use std::sync::ledger::Ledger;
use value_core::{Change, Row, Steps};
use view_groups::{Share, part_of};

/// The shares of a group that leave and that join.
#[derive(Debug, Drop)]
pub(crate) struct Patch {
    pub(crate) out: Vec<Share>,
    pub(crate) more: Vec<Share>,
}

/// What the rows of a change do to each group that one of them is in: the shares that leave it and those that join it.
#[derive(Debug, Drop)]
pub struct Patches {
    pub(crate) map: BTreeMap<Row, Patch>,
}

/// Takes the patch of a group out, or makes an empty one.
fn take_or_new(patches: &mut BTreeMap<Row, Patch>, alloc: Global, key: &Row) -> Patch
    ensures without { WithoutPatch key.now patches.old.entries patches.new.entries }
    ensures patch { PatchFrom key.now patches.old.entries result }
{
    match patches.remove(key) {
        Some(patch) => patch,
        None => Patch {
            out: Vec::new(alloc),
            more: Vec::new(alloc),
        },
    }
}

/// One more share leaves its group.
fn leave(patches: &mut BTreeMap<Row, Patch>, alloc: Global, share: Share) -> Result<(), AllocError>
    ensures { OnOk result ((outs mores : List views.Share) → PatchesFor patches.old.entries outs mores → PatchesFor patches.new.entries (outs ++ seen share ∷ []) mores) }
{
    let key = share.group.copy(alloc)?;
    let mut patch = take_or_new(patches, alloc, &key);
    patch.out.push(share)?;
    patches.insert(key, patch)?;
    Ok(())
}

/// One more share joins its group.
fn join(patches: &mut BTreeMap<Row, Patch>, alloc: Global, share: Share) -> Result<(), AllocError>
    ensures { OnOk result ((outs mores : List views.Share) → PatchesFor patches.old.entries outs mores → PatchesFor patches.new.entries outs (mores ++ seen share ∷ [])) }
{
    let key = share.group.copy(alloc)?;
    let mut patch = take_or_new(patches, alloc, &key);
    patch.more.push(share)?;
    patches.insert(key, patch)?;
    Ok(())
}

/// What a row that goes takes from its group; one that faults takes nothing.
fn leave_row(
    patches: &mut BTreeMap<Row, Patch>,
    alloc: Global,
    query: &Query,
    row: &Row,
) -> Result<(), AllocError>
    ensures { OnOk result ((outs mores : List views.Share) → PatchesFor patches.old.entries outs mores → PatchesFor patches.new.entries (outs ++ views.shares_of query.now (row.now ∷ [])) mores) }
{
    match part_of(alloc, query, row) {
        Ok(Some(share)) => leave(patches, alloc, share),
        Ok(None) => Ok(()),
        Err(StopOr::Stop(_)) => Ok(()),
        Err(StopOr::Memory) => Err(AllocError),
    }
}

/// What the rows that go take from their groups. One tick a row.
fn leave_rows<K: Ledger>(
    patches: &mut BTreeMap<Row, Patch>,
    alloc: Global,
    query: &Query,
    rows: &[Row],
    steps: &mut Steps<K>,
) -> Result<(), AllocError>
    ensures patches { OnOk result ((outs mores : List views.Share) → PatchesFor patches.old.entries outs mores → PatchesFor patches.new.entries (outs ++ views.shares_of query.now rows.now) mores) }
    ensures looks { steps.new ≤ steps.old + length rows.now }
{
    for row in rows {
        steps.tick();
        leave_row(patches, alloc, query, row)?;
    }
    Ok(())
}

/// What a row that comes gives to its group, or the stop by its fault.
fn join_row(
    patches: &mut BTreeMap<Row, Patch>,
    alloc: Global,
    query: &Query,
    row: &Row,
) -> Result<Option<Stop>, AllocError>
    ensures stop { IfOk result (λ stop. stop ≡ views.fault_stop row.now (views.share query.now row.now)) }
    ensures patches { OnOk result ((outs mores : List views.Share) → PatchesFor patches.old.entries outs mores → PatchesFor patches.new.entries outs (mores ++ views.shares_of query.now (row.now ∷ []))) }
{
    match part_of(alloc, query, row) {
        Ok(Some(share)) => {
            join(patches, alloc, share)?;
            Ok(None)
        }
        Ok(None) => Ok(None),
        Err(StopOr::Stop(stop)) => Ok(Some(stop)),
        Err(StopOr::Memory) => Err(AllocError),
    }
}

/// What the rows that come give to their groups, or the stop by the first that faults. One tick a row.
fn join_rows<K: Ledger>(
    patches: &mut BTreeMap<Row, Patch>,
    alloc: Global,
    query: &Query,
    rows: &[Row],
    steps: &mut Steps<K>,
) -> Result<Option<Stop>, AllocError>
    ensures stop { IfOk result (λ stop. stop ≡ first_fault query.now rows.now) }
    ensures patches { IfOk result (λ stop. stop ≡ None → (outs mores : List views.Share) → PatchesFor patches.old.entries outs mores → PatchesFor patches.new.entries outs (mores ++ views.shares_of query.now rows.now)) }
    ensures looks { steps.new ≤ steps.old + length rows.now }
{
    for row in rows {
        steps.tick();
        let stop = join_row(patches, alloc, query, row)?;
        if stop.is_some() {
            return Ok(stop);
        }
    }
    Ok(None)
}

/// The keys of a map stand in row order, each once: `len` says so.
fn stand_in_order(patches: &BTreeMap<Row, Patch>)
    ensures { IsOrdered row_order patches.now }
{
    let _count = patches.len();
}

/// The patches by rows that go and rows that come.
fn patches_of<K: Ledger>(
    alloc: Global,
    query: &Query,
    removed: &[Row],
    added: &[Row],
    steps: &mut Steps<K>,
) -> Result<Patches, StopOr>
    ensures patches { PatchesAnswer query.now removed.now added.now result }
    ensures looks { steps.new ≤ steps.old + (length removed.now + length added.now) }
{
    let mut map = BTreeMap::new(alloc);
    if leave_rows(&mut map, alloc, query, removed, steps).is_err() {
        return Err(StopOr::Memory);
    }
    match join_rows(&mut map, alloc, query, added, steps) {
        Ok(None) => {
            stand_in_order(&map);
            Ok(Patches { map })
        }
        Ok(Some(stop)) => Err(StopOr::Stop(stop)),
        Err(_) => Err(StopOr::Memory),
    }
}

impl Patches {
    /// What the rows of a change do to the groups of a query. A row that goes and faults takes nothing; the stop is the fault
    /// of the first row that comes and has one. Ticks at most once a row. Memory comes where none is found.
    pub fn of_change<K: Ledger>(
        alloc: Global,
        query: &Query,
        change: &Change,
        steps: &mut Steps<K>,
    ) -> Result<Patches, StopOr>
        ensures patches { PatchesAnswer query.now change.now.removed change.now.added result }
        ensures looks { steps.new ≤ steps.old + (length change.now.removed + length change.now.added) }
    {
        patches_of(
            alloc,
            query,
            change.removed.as_slice(),
            change.added.as_slice(),
            steps,
        )
    }
}
