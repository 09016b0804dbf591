// The run of an entry: where it begins and where it ends.
ghost use Rattle.std.specs.Prelude.{◌≡◌, ◌+◌, ◌<◌, ◌≤◌, ◌∷◌, [], length};
ghost use Rattle.cdc_runs.specs.Entries.{IsRunFrom, IsRunTo, columns_after, moments_of};
ghost use Rattle.cdc_runs.specs.Runs.{moment_goes_on};

use crate::columns::after;
use crate::intervals::runs_on;
use event_history::{Entry, History};
use std::sync::ledger::Ledger;
use value_core::Steps;

/// Whether a run goes on from an entry to the next one.
fn joins(tracked: &[u32], entry: &Entry, next: &Entry) -> bool
    ensures { result ≡ moment_goes_on tracked.now (columns_after entry.now) (moments_of (next.now ∷ [])) }
{
    match after(entry) {
        None => false,
        Some(columns) => runs_on(tracked, columns, Some(next)),
    }
}

/// The place where the run of an entry begins. It looks at the entries of the run up to this one and at one more, however
/// long the history is. An entry without columns is a run of its own here.
pub fn run_start<L: Ledger>(
    tracked: &[u32],
    history: &History,
    place: usize,
    steps: &mut Steps<L>,
) -> usize
    requires { place < length history.now }
    ensures run { IsRunFrom tracked.now history.now result place }
    ensures looks { steps.new + result ≤ steps.old + place + 2 }
{
    let mut start = place;
    let mut first = history.look(place, steps);
    while start > 0 {
        let before = history.look(start - 1, steps);
        if !joins(tracked, before, first) {
            return start;
        }
        first = before;
        start -= 1;
    }
    start
}

/// The place where the run of an entry ends. It looks at the entries of the run from this one on and at one more, however
/// long the history is. An entry without columns is a run of its own here.
pub fn run_end<L: Ledger>(
    tracked: &[u32],
    history: &History,
    place: usize,
    steps: &mut Steps<L>,
) -> usize
    requires { place < length history.now }
    ensures run { IsRunTo tracked.now history.now place result }
    ensures looks { steps.new + place ≤ steps.old + result + 2 }
{
    let count = history.len();
    let mut end = place;
    let mut last = history.look(place, steps);
    for i in place + 1..count {
        let next = history.look(i, steps);
        if !joins(tracked, last, next) {
            return end;
        }
        last = next;
        end = i;
    }
    end
}
