// The groups are touched one after another.
ghost use Rattle.std.specs.Prelude.{◌+◌, ◌≤◌, List, length, IfOk};
ghost use Rattle.std.specs.BTreeMap.{IsOrdered};
ghost use Rattle.value_core.specs.Order.{Row, row_order};
ghost use Rattle.flow_model.specs.Views.{shares_of};
ghost use Rattle.view_groups.specs.AllGroups.{TouchesGroup};
ghost use Rattle.view_patches.specs.Patches.{ArePatches, comers, goers, patched_groups};
ghost use Rattle.view_patches.specs.Sides.{TouchesOne, TurnsAll};
ghost use Rattle.view_patches.specs.Walks.{IsNothing, WalksAll};

use crate::patch::{Patch, Patches};
use crate::sides::{Side, Sides, collect};
use plan_core::Query;
use std::alloc::{AllocError, Global};
use std::sync::ledger::Ledger;
use value_core::{ListOf, Row, Steps};
use view_groups::{Groups, Turned};

/// Touches a group by its patch, or back.
fn touch_group(
    groups: &mut Groups,
    alloc: Global,
    query: &Query,
    key: &Row,
    patch: &Patch,
    back: bool,
) -> Result<Turned, AllocError>
    ensures { IfOk result (λ turned. TouchesGroup query.now key.now (goers back patch.now) (comers back patch.now) groups.old groups.new turned) }
{
    let out = patch.out.as_slice();
    let more = patch.more.as_slice();
    if back {
        return groups.touch(alloc, query, key, more, out);
    }
    groups.touch(alloc, query, key, out, more)
}

/// Touches a group, and puts what it gave and gives to the sides.
fn step(
    groups: &mut Groups,
    sides: Sides,
    alloc: Global,
    query: &Query,
    key: &Row,
    patch: &Patch,
    back: bool,
) -> Result<Sides, AllocError>
    ensures { IfOk result (λ new. TouchesOne query.now key.now (goers back patch.now) (comers back patch.now) groups.old groups.new sides new) }
{
    let turned = touch_group(groups, alloc, query, key, patch, back)?;
    let Turned { before, after } = turned;
    let Sides {
        before: old_before,
        after: old_after,
    } = sides;
    let before = collect(old_before, alloc, key, before)?;
    let after = collect(old_after, alloc, key, after)?;
    Ok(Sides { before, after })
}

/// No group's part.
fn no_sides(alloc: Global) -> Sides
    ensures { IsNothing result }
{
    let before = Side {
        rows: ListOf::new(alloc),
        stop: None,
    };
    let after = Side {
        rows: ListOf::new(alloc),
        stop: None,
    };
    Sides { before, after }
}

impl Patches {
    /// Touches all groups that have a patch, or back. One tick a group.
    fn walk<K: Ledger>(
        &self,
        groups: &mut Groups,
        alloc: Global,
        query: &Query,
        back: bool,
        steps: &mut Steps<K>,
    ) -> Result<Sides, AllocError>
        ensures ordered { IsOrdered row_order self.now.map }
        ensures walked { IfOk result (λ sides. WalksAll query.now back self.now.map.entries groups.old groups.new sides) }
        ensures looks { steps.new ≤ steps.old + length (patched_groups self.now) }
    {
        let mut sides = no_sides(alloc);
        for (key, patch) in &self.map {
            steps.tick();
            let next = step(groups, sides, alloc, query, key, patch, back)?;
            sides = next;
        }
        Ok(sides)
    }

    /// Makes groups that keep what the rows before the change give keep what those after it give, and answers what the
    /// touched groups gave and give to the result. A total that is no BIGINT stops nothing here: the answer has it. Ticks once
    /// a touched group. Fails for want of memory alone, and then the groups are of no more use.
    pub fn apply<K: Ledger>(
        &self,
        groups: &mut Groups,
        alloc: Global,
        query: &Query,
        steps: &mut Steps<K>,
    ) -> Result<Sides, AllocError>
        ensures turned { IfOk result (λ sides. (removed added : List Row) → ArePatches self.now (shares_of query.now removed) (shares_of query.now added) → TurnsAll query.now (patched_groups self.now) (shares_of query.now removed) (shares_of query.now added) groups.old groups.new sides) }
        ensures looks { steps.new ≤ steps.old + length (patched_groups self.now) }
    {
        let sides = self.walk(groups, alloc, query, false, steps)?;
        Ok(sides)
    }

    /// Takes a change back that was applied: groups that keep what the rows after it give keep what those before it gave.
    /// Ticks once a touched group. Fails for want of memory alone, and then the groups are of no more use.
    pub fn undo<K: Ledger>(
        &self,
        groups: &mut Groups,
        alloc: Global,
        query: &Query,
        steps: &mut Steps<K>,
    ) -> Result<Sides, AllocError>
        ensures turned { IfOk result (λ sides. (removed added : List Row) → ArePatches self.now (shares_of query.now removed) (shares_of query.now added) → TurnsAll query.now (patched_groups self.now) (shares_of query.now added) (shares_of query.now removed) groups.old groups.new sides) }
        ensures looks { steps.new ≤ steps.old + length (patched_groups self.now) }
    {
        let sides = self.walk(groups, alloc, query, true, steps)?;
        Ok(sides)
    }
}
