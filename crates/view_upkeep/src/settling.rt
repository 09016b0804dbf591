// What the expectations make of the result rows that may go and come.
ghost use Rattle.std.specs.Prelude.{◌≡◌, IfErr, IfOk};
ghost use Rattle.value_core.specs.Bags.{in_row_order, net_change};
ghost use Rattle.flow_model.specs.Views as views;
ghost use Rattle.plan_core.specs.declared.stop.StopOr.TheVariants.{Memory};
ghost use Rattle.view_query.specs.Judging.{JudgeAnswers};
ghost use Rattle.view_upkeep.specs.Settled.{SettleAnswers, SidesAnswer};
ghost use Rattle.view_upkeep.specs.Tallies.{turned_counts};

use crate::parts::Parts;
use crate::tallies::turn_tallies;
use net_changes::net;
use plan_core::{Expectations, StopOr};
use std::alloc::Global;
use value_core::{Change, Rows, Tallies};
use view_patches::{Side, Sides};
use view_query::{Judged, in_order, judge};

/// What a turn does to a view: the net difference of its rows, and the counts of its expectations over its whole result.
#[derive(Debug, Drop)]
pub struct Turn {
    pub change: Change,
    pub tallies: Tallies,
}

/// What expectations make of a part of the result.
fn judge_part(alloc: Global, expectations: &Expectations, rows: Rows) -> Result<Judged, StopOr>
    ensures { JudgeAnswers (views.judged_view expectations.now (in_row_order rows)) result }
{
    match in_order(rows) {
        Ok(sorted) => judge(alloc, expectations, &sorted),
        Err(_) => Err(StopOr::Memory),
    }
}

/// The turn by what is kept of the rows that go and of those that come.
fn finish(alloc: Global, counts: &Tallies, old: Judged, new: Judged) -> Result<Turn, StopOr>
    ensures change { IfOk result (λ turn. turn.change ≡ net_change old.rows new.rows) }
    ensures tallies { IfOk result (λ turn. turn.tallies ≡ turned_counts counts.now old.counts new.counts) }
    ensures memory { IfErr result (λ e. e ≡ Memory) }
{
    let kept = counts.as_slice();
    let Ok(tallies) = turn_tallies(alloc, kept, old.counts.as_slice(), new.counts.as_slice()) else {
        return Err(StopOr::Memory);
    };
    let Judged { rows: old_rows, .. } = old;
    let Judged { rows: new_rows, .. } = new;
    match net(alloc, old_rows, new_rows) {
        Ok(change) => Ok(Turn { change, tallies }),
        Err(_) => Err(StopOr::Memory),
    }
}

/// The turn by the result rows that may go and come, from the counts before, or the first stop among the rows that may come.
pub(crate) fn settle(
    alloc: Global,
    expectations: &Expectations,
    counts: &Tallies,
    parts: Parts,
) -> Result<Turn, StopOr>
    ensures { SettleAnswers expectations.now counts.now parts.before parts.after result }
{
    let Parts { before, after } = parts;
    match judge_part(alloc, expectations, after) {
        Ok(new) => match judge_part(alloc, expectations, before) {
            Ok(old) => finish(alloc, counts, old, new),
            Err(end) => Err(end),
        },
        Err(end) => Err(end),
    }
}

/// The same of the two sides of touched groups, of which a sum that is no BIGINT comes first.
pub(crate) fn settle_sides(
    alloc: Global,
    expectations: &Expectations,
    counts: &Tallies,
    sides: Sides,
) -> Result<Turn, StopOr>
    ensures { SidesAnswer expectations.now counts.now sides result }
{
    let Sides { before, after } = sides;
    let Side { rows: before, .. } = before;
    let Side { rows: after, stop } = after;
    match stop {
        Some(sum) => Err(StopOr::Stop(sum)),
        None => settle(alloc, expectations, counts, Parts { before, after }),
    }
}
