use statement_checks::CheckFault;
use std::alloc::AllocError;

/// Why a select gives nothing.
#[derive(Debug, Drop)]
pub enum SelectEnd {
    /// The first check that it breaks.
    Fault(CheckFault),
    /// Want of memory, which no definition gives.
    Memory,
}

impl From<AllocError> for SelectEnd {
    ghost use Rattle.std.specs.Prelude.{◌≡◌};
    ghost use Rattle.select_checks.specs.declared.end.SelectEnd.TheVariants.{Memory};

    ghost from_gives = { λ _ e. e ≡ Memory };

    fn from(_: AllocError) -> SelectEnd {
        SelectEnd::Memory
    }
}
