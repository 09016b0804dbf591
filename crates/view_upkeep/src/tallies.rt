// Counts of a result after a change.
ghost use Rattle.std.specs.Prelude.{◌≡◌, ◌+◌, ◌-◌, IfOk};
ghost use Rattle.view_upkeep.specs.Tallies.{turned_tally, turned_counts};

use std::alloc::{AllocError, Global};
use value_core::{ListOf, Tallies, Tally};

/// A count after some went out and some came. Fails where it has no room, which no list of rows is long enough for.
fn turn_count(kept: u64, out: u64, more: u64) -> Result<u64, AllocError>
    ensures { IfOk result (λ turned. turned ≡ kept + more - out) }
{
    match kept.checked_add(more) {
        Some(all) => Ok(all.saturating_sub(out)),
        None => Err(AllocError),
    }
}

/// The counts of an expectation after a change.
fn turn_tally(kept: Tally, out: Tally, more: Tally) -> Result<Tally, AllocError>
    ensures { IfOk result (λ turned. turned ≡ turned_tally kept out more) }
{
    let passed = turn_count(kept.passed, out.passed, more.passed)?;
    let failed = turn_count(kept.failed, out.failed, more.failed)?;
    Ok(Tally { passed, failed })
}

/// The counts of expectations over the result after a change, from those before it, those of the result rows that go and
/// those of the ones that come.
pub(crate) fn turn_tallies(
    alloc: Global,
    kept: &[Tally],
    out: &[Tally],
    more: &[Tally],
) -> Result<Tallies, AllocError>
    ensures { IfOk result (λ turned. turned ≡ turned_counts kept.now out.now more.now) }
{
    let mut turned: Tallies = ListOf::new(alloc);
    let mut kept_left = kept;
    let mut out_left = out;
    let mut more_left = more;
    while let Some((k, ks)) = kept_left.split_first() {
        let Some((o, os)) = out_left.split_first() else {
            return Ok(turned);
        };
        let Some((m, ms)) = more_left.split_first() else {
            return Ok(turned);
        };
        let next = turn_tally(*k, *o, *m)?;
        turned.push(next)?;
        kept_left = ks;
        out_left = os;
        more_left = ms;
    }
    Ok(turned)
}
