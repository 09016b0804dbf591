use std::alloc::AllocError;
use value_core::{Name, Text};

/// How a check is broken.
#[derive(Debug, Drop)]
pub enum CheckFault {
    /// The statement is of a form that isn't built yet.
    NotYet,
    /// A column has the name of an earlier one; this is the later one's.
    Duplicate { name: Name },
    /// More than a limit allows: the limit plus 1.
    TooMany { count: u32 },
    /// The origin of a flow isn't read as a stream.
    NotStreaming { name: Name },
    /// The options of `read_files` break a rule.
    BadOption { word: Text },
    /// A streaming flow has GROUP BY.
    AggregateInStream,
    /// No column has this name.
    UnknownName { name: Name },
    /// The table hasn't the columns that are declared: the first that differs or is too many.
    SchemaDiffers { name: Name },
}

/// Why statements have no plan.
#[derive(Debug, Drop)]
pub enum CheckRefusal {
    /// The first check that is broken, and the number of its statement from 1.
    Refused { statement: u32, fault: CheckFault },
    /// Want of memory, which no check gives.
    Memory,
}

impl From<AllocError> for CheckRefusal {
    ghost use Rattle.std.specs.Prelude.{◌≡◌};
    ghost use Rattle.type_check.specs.declared.fault.CheckRefusal.TheVariants.{Memory};

    ghost from_gives = { λ _ e. e ≡ Memory };

    fn from(_: AllocError) -> CheckRefusal {
        CheckRefusal::Memory
    }
}

/// Why a table is no part of a plan.
#[derive(Debug, Drop)]
pub enum TableEnd {
    Fault(CheckFault),
    Memory,
}

impl From<AllocError> for TableEnd {
    ghost use Rattle.std.specs.Prelude.{◌≡◌};
    ghost use Rattle.type_check.specs.declared.fault.TableEnd.TheVariants.{Memory};

    ghost from_gives = { λ _ e. e ≡ Memory };

    fn from(_: AllocError) -> TableEnd {
        TableEnd::Memory
    }
}
