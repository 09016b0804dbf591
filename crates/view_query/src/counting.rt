// Counts of the rows that expectations pass.
ghost use Rattle.std.specs.Prelude.{◌≡◌, ◌+◌, [], map, length, IfOk, OnOk};
ghost use Rattle.value_core.specs.Tallies.{added, both_tallies};
ghost use Rattle.flow_model.specs.Admission.{counts};
ghost use Rattle.view_query.specs.Judging.{tally_of};

use plan_core::Expectations;
use std::alloc::{AllocError, Global};
use value_core::Tally;

/// One more. Fails where that is no `u64`, which no list of rows is long enough for.
fn next(count: u64) -> Result<u64, AllocError>
    ensures { IfOk result (λ next. next ≡ count + 1) }
{
    match count.checked_add(1) {
        Some(next) => Ok(next),
        None => Err(AllocError),
    }
}

/// A count with one row more.
fn one_more(tally: Tally, passed: bool) -> Result<Tally, AllocError>
    ensures { IfOk result (λ more. more ≡ both_tallies tally (tally_of passed)) }
{
    if passed {
        let passed = next(tally.passed)?;
        return Ok(Tally {
            passed,
            failed: tally.failed,
        });
    }
    let failed = next(tally.failed)?;
    Ok(Tally {
        passed: tally.passed,
        failed,
    })
}

/// Counts a row of these marks.
pub(crate) fn count_marks(tallies: &mut [Tally], marks: &[bool]) -> Result<(), AllocError>
    requires { length tallies.old ≡ length marks.now }
    ensures counted { OnOk result (tallies.new ≡ added tallies.old (map tally_of marks.now)) }
    ensures each { length tallies.new ≡ length tallies.old }
{
    for (i, passed) in marks.iter().enumerate() {
        let more = one_more(tallies[i], *passed)?;
        tallies[i] = more;
    }
    Ok(())
}

/// The counts of no row.
pub(crate) fn no_tallies(
    alloc: Global,
    expectations: &Expectations,
) -> Result<Vec<Tally>, AllocError>
    ensures { IfOk result (λ tallies. tallies.items ≡ counts expectations.now []) }
{
    let mut tallies = Vec::new(alloc);
    for _expectation in expectations.as_slice() {
        tallies.push(Tally {
            passed: 0,
            failed: 0,
        })?;
    }
    Ok(tallies)
}
