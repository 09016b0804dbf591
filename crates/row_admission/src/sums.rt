// Sums of counts.
ghost use Rattle.std.specs.Prelude.{◌≡◌, IfNone, OnSome};
ghost use Rattle.value_core.specs.Tallies.{both_tallies};
ghost use Rattle.flow_model.specs.Counts.{past_limit};

use value_core::Tally;

/// The first number past the greatest count.
const LIMIT: u128 = 1 << 63;

/// Adds the counts of an expectation to those that are kept of it. Where one would pass 2^63 - 1 the
/// answer is that total, of the passed rows before that of the failed ones, and nothing changes.
/// Takes no memory.
pub fn add(into: &mut Tally, more: &Tally) -> Option<u128>
    ensures total { result ≡ past_limit (both_tallies into.old more.now) }
    ensures added { IfNone result (into.new ≡ both_tallies into.old more.now) }
    ensures kept { OnSome result (into.new ≡ into.old) }
{
    let passed = u128::from(into.passed) + u128::from(more.passed);
    let failed = u128::from(into.failed) + u128::from(more.failed);
    if passed >= LIMIT {
        return Some(passed);
    }
    if failed >= LIMIT {
        return Some(failed);
    }
    into.passed = passed as u64;
    into.failed = failed as u64;
    None
}
