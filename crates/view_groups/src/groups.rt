ghost use Rattle.std.specs.Prelude.{◌≡◌, ◌==◌, ◌||◌, not, map, [], ◌∷◌, ◌++◌, List, None, IfOk, OnOk};
ghost use Rattle.flow_model.specs.Views as views;
ghost use Rattle.view_groups.specs.AllGroups.{AllAnswers, GivesRow, GroupFrom, IsKeyed, IsWithout, KeepsShares, PutsBack, ResultAnswers, RowsAnswers, StopFor, TouchesGroup, first_fault};
ghost use Rattle.std.specs.BTreeMap.{IsOrdered};
ghost use Rattle.value_core.specs.Order.{row_order};
ghost use Rattle.view_groups.specs.Shares.{seen};
ghost use Rattle.view_groups.specs.Groups.{KeepsGroup};
ghost use Rattle.plan_core.specs.declared.query.Item.{Item};
ghost use Rattle.plan_core.specs.declared.query.Query.{Query};

use crate::cell::GroupEnd;
use crate::group::Group;
use crate::share::{Share, part_of};
use plan_core::{Item, Query, Stop, StopOr};
use std::alloc::{AllocError, Global};
use std::collections::BTreeMap;
use value_core::{ListOf, Row, Rows};

/// The groups of a query by their keys: those that have a row, and without GROUP BY the one group.
#[derive(Debug, Drop)]
pub struct Groups {
    map: BTreeMap<Row, Group>,
}

/// Takes a group out of the map, or makes one without rows.
fn take_or_new(
    map: &mut BTreeMap<Row, Group>,
    alloc: Global,
    items: &[Item],
    key: &Row,
) -> Result<Group, AllocError>
    ensures without { IsWithout key.now map.old.entries map.new.entries }
    ensures group { IfOk result (λ group. GroupFrom items.now key.now map.old.entries group) }
{
    match map.remove(key) {
        Some(group) => Ok(group),
        None => Group::new(alloc, items),
    }
}

/// What a group gives to the result.
#[derive(Debug, Drop)]
pub enum Gives {
    /// It has no row.
    Nothing,
    OneRow(Row),
    /// Its first exact total that is no BIGINT.
    NoBig { total: i128 },
}

/// What the change of a group did to its part of the result.
#[derive(Debug, Drop)]
pub struct Turned {
    pub before: Gives,
    pub after: Gives,
}

/// What a group gives, which has a row where it has members or is the only one.
fn row_if_there(alloc: Global, alone: bool, group: &Group, key: &Row) -> Result<Gives, AllocError>
    ensures { IfOk result (λ given. (items : List Item) (members : List views.Share) → KeepsGroup items group.now members → GivesRow items key.now members (alone || not (group.now.rows == 0)) given) }
{
    if !is_kept(alone, group) {
        return Ok(Gives::Nothing);
    }
    match group.row(alloc, key) {
        Ok(row) => Ok(Gives::OneRow(row)),
        Err(GroupEnd::NoBig { total }) => Ok(Gives::NoBig { total }),
        Err(GroupEnd::Memory) => Err(AllocError),
    }
}

/// Whether a group is kept: it is the only one, or has a row.
fn is_kept(alone: bool, group: &Group) -> bool
    ensures { result ≡ (alone || not (group.now.rows == 0)) }
{
    if alone {
        return true;
    }
    group.has_rows()
}

/// Puts a group back under its key, unless it has no row and isn't the only one.
fn put_back(
    map: &mut BTreeMap<Row, Group>,
    alloc: Global,
    alone: bool,
    key: &Row,
    group: Group,
) -> Result<(), AllocError>
    ensures { OnOk result (PutsBack alone key.now group map.old.entries map.new.entries) }
{
    if !is_kept(alone, &group) {
        return Ok(());
    }
    map.insert(key.copy(alloc)?, group)?;
    Ok(())
}

/// The stop by what a group has in place of a row.
fn stop_of(alloc: Global, key: &Row, end: GroupEnd) -> StopOr
    ensures { StopFor key.now end result }
{
    match end {
        GroupEnd::NoBig { total } => match key.copy(alloc) {
            Ok(group) => StopOr::Stop(Stop::SumOverflow { group, total }),
            Err(_) => StopOr::Memory,
        },
        GroupEnd::Memory => StopOr::Memory,
    }
}

impl Groups {
    /// The groups of no row.
    pub fn new(alloc: Global, query: &Query) -> Result<Groups, AllocError>
        ensures { IfOk result (λ groups. KeepsShares query.now groups []) }
    {
        let mut map = BTreeMap::new(alloc);
        if query.groups.as_slice().is_empty() {
            let group = Group::new(alloc, query.items.as_slice())?;
            map.insert(ListOf::new(alloc), group)?;
        }
        Ok(Groups { map })
    }

    /// Takes the share of one more row in. Fails for want of memory alone.
    fn add(&mut self, alloc: Global, query: &Query, share: Share) -> Result<(), AllocError>
        ensures { OnOk result ((shares : List views.Share) → IsKeyed query.now (seen share) → KeepsShares query.now self.old shares → KeepsShares query.now self.new (shares ++ seen share ∷ [])) }
    {
        let mut group = take_or_new(&mut self.map, alloc, query.items.as_slice(), &share.group)?;
        group.add(alloc, &share.values)?;
        let Share { group: key, .. } = share;
        self.map.insert(key, group)?;
        Ok(())
    }

    /// Some shares of a group leave and others join. Fails for want of memory alone.
    pub fn touch(
        &mut self,
        alloc: Global,
        query: &Query,
        key: &Row,
        out: &[Share],
        more: &[Share],
    ) -> Result<Turned, AllocError>
        ensures { IfOk result (λ turned. TouchesGroup query.now key.now (map seen out.now) (map seen more.now) self.old self.new turned) }
    {
        let alone = query.groups.as_slice().is_empty();
        let mut group = take_or_new(&mut self.map, alloc, query.items.as_slice(), key)?;
        let before = row_if_there(alloc, alone, &group, key)?;
        group.patch(alloc, out, more)?;
        let after = row_if_there(alloc, alone, &group, key)?;
        put_back(&mut self.map, alloc, alone, key, group)?;
        Ok(Turned { before, after })
    }

    /// The result rows of all groups, by their keys. The stop is the first exact total that is no BIGINT, of the least group
    /// that has one. Memory comes where none is found.
    pub fn rows(&self, alloc: Global) -> Result<Rows, StopOr>
        ensures { (query : Query) (shares : List views.Share) → KeepsShares query self.now shares → ResultAnswers query shares result }
    {
        self.all_rows(alloc)
    }

    /// The same, of whatever members the groups keep.
    fn all_rows(&self, alloc: Global) -> Result<Rows, StopOr>
        ensures ordered { IsOrdered row_order self.now.map }
        ensures answers { AllAnswers self.now.map.entries result }
    {
        let mut rows = ListOf::new(alloc);
        for (key, group) in &self.map {
            match group.row(alloc, key) {
                Ok(row) => {
                    if rows.push(row).is_err() {
                        return Err(StopOr::Memory);
                    }
                }
                Err(end) => return Err(stop_of(alloc, key, end)),
            }
        }
        Ok(rows)
    }

    /// Takes one more row in; a row that faults gives nothing, but a stop. `Err` for want of memory alone.
    pub fn take_in(
        &mut self,
        alloc: Global,
        query: &Query,
        row: &Row,
    ) -> Result<Option<Stop>, AllocError>
        ensures stop { IfOk result (λ stop. stop ≡ views.fault_stop row.now (views.share query.now row.now)) }
        ensures groups { OnOk result ((shares : List views.Share) → KeepsShares query.now self.old shares → KeepsShares query.now self.new (shares ++ views.shares_of query.now (row.now ∷ []))) }
    {
        match part_of(alloc, query, row) {
            Ok(Some(share)) => {
                self.add(alloc, query, share)?;
                Ok(None)
            }
            Ok(None) => Ok(None),
            Err(StopOr::Stop(stop)) => Ok(Some(stop)),
            Err(StopOr::Memory) => Err(AllocError),
        }
    }

    /// Takes rows in, as far as the first that faults. `Err` for want of memory alone.
    fn fill(
        &mut self,
        alloc: Global,
        query: &Query,
        rows: &[Row],
    ) -> Result<Option<Stop>, AllocError>
        ensures stop { IfOk result (λ stop. stop ≡ first_fault query.now rows.now) }
        ensures groups { IfOk result (λ stop. stop ≡ None → (shares : List views.Share) → KeepsShares query.now self.old shares → KeepsShares query.now self.new (shares ++ views.shares_of query.now rows.now)) }
    {
        for row in rows {
            let stop = self.take_in(alloc, query, row)?;
            if stop.is_some() {
                return Ok(stop);
            }
        }
        Ok(None)
    }
}

/// The result rows over these source rows of a query that groups, by the groups' keys, in one pass. The stop is the fault
/// of the first row that has one, else the first exact total that is no BIGINT, of the least group that has one. Memory
/// comes where none is found.
pub fn group_rows(alloc: Global, query: &Query, rows: &[Row]) -> Result<Rows, StopOr>
    ensures { RowsAnswers query.now rows.now result }
{
    let Ok(mut groups) = Groups::new(alloc, query) else {
        return Err(StopOr::Memory);
    };
    match groups.fill(alloc, query, rows) {
        Ok(None) => groups.rows(alloc),
        Ok(Some(stop)) => Err(StopOr::Stop(stop)),
        Err(_) => Err(StopOr::Memory),
    }
}
