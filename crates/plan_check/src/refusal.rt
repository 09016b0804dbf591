use statement_checks::Break;
use std::alloc::AllocError;
use value_core::Names;

/// Why statements have no plan.
#[derive(Debug, Drop)]
pub enum CheckRefusal {
    /// The first check that is broken, and the number of its statement from 1.
    Refused(Break),
    /// Datasets read one another in a cycle: from the first dataset without a level on, each one is
    /// followed by the first without a level that it reads, until one comes again. The path begins
    /// and ends with that one.
    Cycle { path: Names },
    /// Want of memory, which no check gives.
    Memory,
}

impl From<AllocError> for CheckRefusal {
    ghost use Rattle.std.specs.Prelude.{◌≡◌};
    ghost use Rattle.plan_check.specs.declared.refusal.CheckRefusal.TheVariants.{Memory};

    ghost from_gives = { λ _ e. e ≡ Memory };

    fn from(_: AllocError) -> CheckRefusal {
        CheckRefusal::Memory
    }
}
