ghost use Rattle.std.specs.Prelude.{◌≡◌, ◌+◌, Result, Err, IfOk};
ghost use Rattle.statement_checks.specs.Breaks.{broken};
ghost use Rattle.statement_checks.specs.declared.fault.CheckFault.{CheckFault};
ghost use Rattle.statement_checks.specs.declared.fault.CheckFault.TheVariants.{NoFlow};
ghost use Rattle.select_checks.specs.Ends.{Judges};
ghost use Rattle.dataset_checks.specs.Ends.{Answers, at_statement};

use select_checks::SelectEnd;
use statement_checks::{Break, CheckFault};
use std::alloc::{AllocError, Global};
use value_core::Name;

/// Why a statement gives no dataset.
#[derive(Debug, Drop)]
pub enum DatasetEnd {
    /// The first check that is broken, and the statement in which it is.
    Refused(Break),
    /// Want of memory, which no check gives; also a statement or a place in it whose number 32 bits
    /// don't hold.
    Memory,
}

impl From<AllocError> for DatasetEnd {
    ghost use Rattle.std.specs.Prelude.{◌≡◌};
    ghost use Rattle.dataset_checks.specs.declared.end.DatasetEnd.TheVariants.{Memory};

    ghost from_gives = { λ _ e. e ≡ Memory };

    fn from(_: AllocError) -> DatasetEnd {
        DatasetEnd::Memory
    }
}

/// A fault in the statement of this place from 0.
fn refused(place: usize, fault: CheckFault) -> Result<Break, AllocError>
    ensures { IfOk result (λ found. found ≡ broken (place + 1) fault) }
{
    if place < 4294967295 {
        let statement = place as u32 + 1;
        Ok(Break { statement, fault })
    } else {
        Err(AllocError)
    }
}

/// What is given, or a fault in the statement of this place from 0.
pub(crate) fn numbered<T: Drop>(place: usize, given: Result<T, SelectEnd>) -> Result<T, DatasetEnd>
    ensures { (meant : Result T CheckFault) → Judges meant given → Answers (at_statement place meant) result }
{
    match given {
        Ok(given) => Ok(given),
        Err(SelectEnd::Fault(fault)) => match refused(place, fault) {
            Ok(found) => Err(DatasetEnd::Refused(found)),
            Err(AllocError) => Err(DatasetEnd::Memory),
        },
        Err(SelectEnd::Memory) => Err(DatasetEnd::Memory),
    }
}

/// The fault that nothing fills what has this name.
pub(crate) fn no_flow_fault(alloc: Global, name: &str) -> Result<CheckFault, AllocError>
    ensures { IfOk result (λ fault. fault ≡ NoFlow name.now) }
{
    let name = Name::new(alloc, name)?;
    Ok(CheckFault::NoFlow { name })
}

/// The answer that nothing fills what has this name.
pub(crate) fn no_flow<T>(alloc: Global, name: &str) -> Result<T, SelectEnd>
    ensures { Judges (Err (NoFlow name.now)) result }
{
    match no_flow_fault(alloc, name) {
        Ok(fault) => Err(SelectEnd::Fault(fault)),
        Err(AllocError) => Err(SelectEnd::Memory),
    }
}

/// The answer that nothing fills what has this name, in the statement of this place from 0.
pub(crate) fn nothing_at<T: Drop>(alloc: Global, place: usize, name: &str) -> Result<T, DatasetEnd>
    ensures { Answers (Err (broken (place + 1) (NoFlow name.now))) result }
{
    numbered(place, no_flow(alloc, name))
}
