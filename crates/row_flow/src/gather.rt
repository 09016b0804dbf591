// The results of rows, one after another, up to the first that stops.
ghost use Rattle.std.specs.Prelude.{◌≡◌, ◌+◌, ◌<◌, ◌^◌, ◌++◌, ◌∷◌, [], List, None, map, length, option_map, option_to_list, is_some, IfOk, OnOk, OnSome};
ghost use Rattle.value_core.specs.Tallies.{added, both_tallies};
ghost use Rattle.flow_model.specs.Admission.{counts};
ghost use Rattle.flow_model.specs.Halts.{numbered as with_number};
ghost use Rattle.row_flow.specs.declared.result.Judged.{Judged as Meant};
ghost use Rattle.row_flow.specs.Gathers.{AreBelow, IsGathered, counted, tally_of};
ghost use Rattle.row_flow.specs.Results.{Come, event_of, halt_of, kept_of, seen_of};

use crate::result::{Judged, RowResult};
use plan_core::{Expectations, Stop};
use std::alloc::{AllocError, Global};
use value_core::{ListOf, NumberedEvent, NumberedEvents, Row, Tally};

/// What rows give up to the first that stops: how many they are, the projections that are kept, the
/// events, one count an expectation, and that stop.
#[derive(Debug, Drop)]
pub(crate) struct Gathered {
    pub read: u64,
    pub rows: Vec<Row>,
    pub events: NumberedEvents,
    pub tallies: Vec<Tally>,
    pub halt: Option<Stop>,
}

/// A count with one row more.
fn one_more(tally: Tally, passed: bool) -> Tally
    requires { tally.passed + tally.failed < 2 ^ 63 }
    ensures { result ≡ both_tallies tally (tally_of passed) }
{
    if passed {
        Tally {
            passed: tally.passed + 1,
            failed: tally.failed,
        }
    } else {
        Tally {
            passed: tally.passed,
            failed: tally.failed + 1,
        }
    }
}

/// Counts a row of these marks.
fn count_marks(tallies: &mut [Tally], marks: &[bool])
    requires below { AreBelow (2 ^ 63) tallies.old }
    requires each { length tallies.old ≡ length marks.now }
    ensures { tallies.new ≡ added tallies.old (map tally_of marks.now) }
{
    for (i, passed) in marks.iter().enumerate() {
        tallies[i] = one_more(tallies[i], *passed);
    }
}

/// No row yet, one count an expectation.
fn no_tallies(alloc: Global, expectations: &Expectations) -> Result<Vec<Tally>, AllocError>
    ensures { IfOk result (λ tallies. tallies.items ≡ counts expectations.now []) }
{
    let mut tallies = Vec::new(alloc);
    for _expectation in expectations.as_slice() {
        tallies.push(Tally {
            passed: 0,
            failed: 0,
        })?;
    }
    Ok(tallies)
}

/// Whether expectations were judged on a row.
fn is_seen(judged: &Judged) -> bool
    ensures { result ≡ is_some (seen_of judged.now) }
{
    match judged {
        Judged::Passed => false,
        Judged::Kept(_) => true,
        Judged::Dropped(_) => true,
        Judged::Upsert(_) => true,
        Judged::Other(_) => false,
        Judged::Halt(_) => false,
    }
}

/// Counts a row, if expectations were judged on it.
fn count(tallies: &mut Vec<Tally>, judged: &Judged, marks: &[bool])
    requires below { AreBelow (2 ^ 63) tallies.old.items }
    requires each { OnSome (seen_of judged.now) (length tallies.old.items ≡ length marks.now) }
    ensures { tallies.new.items ≡ counted judged.now marks.now tallies.old.items }
{
    if is_seen(judged) {
        count_marks(tallies.as_mut_slice(), marks);
    }
}

/// Keeps what a row of this number gives, and answers its stop.
fn keep(
    number: u64,
    judged: Judged,
    rows: &mut Vec<Row>,
    events: &mut NumberedEvents,
) -> Result<Option<Stop>, AllocError>
    ensures halt { IfOk result (λ halt. halt ≡ halt_of judged) }
    ensures rows { OnOk result (rows.new.items ≡ rows.old.items ++ option_to_list (kept_of judged)) }
    ensures events { OnOk result (events.new ≡ events.old ++ option_to_list (option_map (with_number number) (event_of judged))) }
{
    match judged {
        Judged::Passed => Ok(None),
        Judged::Kept(row) => {
            rows.push(row)?;
            Ok(None)
        }
        Judged::Dropped(_) => Ok(None),
        Judged::Upsert(event) => {
            events.push(NumberedEvent { row: number, event })?;
            Ok(None)
        }
        Judged::Other(event) => {
            events.push(NumberedEvent { row: number, event })?;
            Ok(None)
        }
        Judged::Halt(stop) => Ok(Some(stop)),
    }
}

/// What the results of rows give, up to the first that stops. Fails where memory was wanting at a
/// row before that one, or is now.
pub(crate) fn gather(
    alloc: Global,
    expectations: &Expectations,
    answers: Vec<Result<RowResult, AllocError>>,
) -> Result<Gathered, AllocError>
    requires { (wanted : List Meant) × Come expectations.now wanted answers.items }
    ensures { IfOk result (λ gathered. (wanted : List Meant) → Come expectations.now wanted answers.items → IsGathered expectations.now wanted gathered) }
{
    let mut rows = Vec::new(alloc);
    let mut events = ListOf::new(alloc);
    let mut tallies = no_tallies(alloc, expectations)?;
    let mut read: u64 = 0;
    for answer in answers {
        let result = answer?;
        count(&mut tallies, &result.judged, result.marks.as_slice());
        match keep(read + 1, result.judged, &mut rows, &mut events)? {
            None => read += 1,
            Some(stop) => {
                return Ok(Gathered {
                    read,
                    rows,
                    events,
                    tallies,
                    halt: Some(stop),
                });
            }
        }
    }
    Ok(Gathered {
        read,
        rows,
        events,
        tallies,
        halt: None,
    })
}
