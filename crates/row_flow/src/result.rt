// What a row comes to by itself.
ghost use Rattle.std.specs.Prelude.{IfOk};
ghost use Rattle.row_flow.specs.Judges.{StopsAt};

use plan_core::{Place, Stop};
use row_admission::Marks;
use row_expr::RowFault;
use std::alloc::AllocError;
use value_core::{Event, Name, Row};

/// What a row comes to by itself.
#[derive(Debug, Drop)]
pub(crate) enum Judged {
    /// WHERE doesn't take it.
    Passed,
    /// The projection of a row that is kept.
    Kept(Row),
    /// A projection, or the columns of an upsert, that an expectation drops.
    Dropped(Row),
    /// An upsert.
    Upsert(Event),
    /// A delete or a truncate.
    Other(Event),
    /// It stops the flow.
    Halt(Stop),
}

/// What a row comes to, and which expectations it passes where they were judged.
#[derive(Debug, Drop)]
pub(crate) struct RowResult {
    pub judged: Judged,
    pub marks: Marks,
}

/// Why a row stops the flow, or want of memory.
#[derive(Debug, Drop)]
pub(crate) enum RowStop {
    Fault(RowFault),
    Fails(Name),
    /// Its sequence has a NULL.
    NoSequence,
}

/// The stop at the row of this number. Fails where memory was wanting.
pub(crate) fn stop_of(number: u64, why: RowStop) -> Result<Stop, AllocError>
    ensures { IfOk result (StopsAt number why) }
{
    let place = Place::Number(number);
    match why {
        RowStop::Fails(name) => Ok(Stop::Expect { place, name }),
        RowStop::NoSequence => Ok(Stop::NullSequence { row: number }),
        RowStop::Fault(RowFault::Overflow) => Ok(Stop::Overflow { place }),
        RowStop::Fault(RowFault::ZeroDivisor) => Ok(Stop::ZeroDivisor { place }),
        RowStop::Fault(RowFault::BadCast) => Ok(Stop::BadCast { place }),
        RowStop::Fault(RowFault::Memory) => Err(AllocError),
    }
}
