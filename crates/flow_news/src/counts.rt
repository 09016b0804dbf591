// Counts that would pass their limit.
ghost use Rattle.std.specs.Prelude.{◌≡◌, IfOk};
ghost use Rattle.flow_model.specs.Counts.{count_stop};

use plan_core::{Expectation, Stop};
use row_admission::add;
use std::alloc::{AllocError, Global};
use value_core::Tally;

/// The stop of the first expectation whose kept counts with further ones pass 2^63 - 1. `Err` comes for want of memory alone.
pub fn find_overflow(
    alloc: Global,
    expectations: &[Expectation],
    kept: &[Tally],
    more: &[Tally],
) -> Result<Option<Stop>, AllocError>
    ensures { IfOk result (λ stop. stop ≡ count_stop expectations.now kept.now more.now) }
{
    let mut kept = kept;
    let mut more = more;
    for x in expectations {
        let Some((old, olds)) = kept.split_first() else {
            return Ok(None);
        };
        let Some((new, news)) = more.split_first() else {
            return Ok(None);
        };
        let mut sum = *old;
        if let Some(total) = add(&mut sum, new) {
            let name = x.name.copy(alloc)?;
            return Ok(Some(Stop::CountOverflow { name, total }));
        }
        kept = olds;
        more = news;
    }
    Ok(None)
}
