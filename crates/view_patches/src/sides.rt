// What the touched groups give to the result, before and after.
ghost use Rattle.std.specs.Prelude.{◌≡◌, Some, IfOk};
ghost use Rattle.std.specs.Option.{option_or};
ghost use Rattle.plan_core.specs.declared.stop.Stop.TheVariants.{SumOverflow};
ghost use Rattle.view_patches.specs.Sides.{Collected};

use plan_core::Stop;
use std::alloc::{AllocError, Global};
use value_core::{Row, Rows};
use view_groups::Gives;

/// What some groups give to the result: their rows in the order of their keys, and the stop by the first exact total that is
/// no BIGINT, of the least group that has one. Where there is a stop, the rows aren't whole.
#[derive(Debug, Drop)]
pub struct Side {
    pub rows: Rows,
    pub stop: Option<Stop>,
}

/// What the touched groups gave before a change and give after it.
#[derive(Debug, Drop)]
pub struct Sides {
    pub before: Side,
    pub after: Side,
}

/// The first of two stops: one that is there, else that of this total.
fn sum_stop(
    stop: Option<Stop>,
    alloc: Global,
    key: &Row,
    total: i128,
) -> Result<Option<Stop>, AllocError>
    ensures { IfOk result (λ first. first ≡ option_or stop (Some (SumOverflow key.now total))) }
{
    if stop.is_some() {
        return Ok(stop);
    }
    let group = key.copy(alloc)?;
    Ok(Some(Stop::SumOverflow { group, total }))
}

/// Puts what one more group gives to a side.
pub(crate) fn collect(
    side: Side,
    alloc: Global,
    key: &Row,
    given: Gives,
) -> Result<Side, AllocError>
    ensures { IfOk result (λ new. Collected key.now given side new) }
{
    let Side { mut rows, stop } = side;
    match given {
        Gives::Nothing => Ok(Side { rows, stop }),
        Gives::OneRow(row) => {
            rows.push(row)?;
            Ok(Side { rows, stop })
        }
        Gives::NoBig { total } => {
            let stop = sum_stop(stop, alloc, key, total)?;
            Ok(Side { rows, stop })
        }
    }
}
