use row_expr::Expr;
use statement_checks::CheckFault;
use std::alloc::AllocError;
use value_core::{Places, Schema};

/// What a change feed gives over the columns of its source: all of `plan_core::Cdc` but its name and
/// its origin, and the columns that it gives.
#[derive(Debug, Drop)]
pub struct FeedParts {
    /// KEYS, as places among the outputs.
    pub keys: Places,
    /// SEQUENCE BY, as places among the columns of the source.
    pub sequence: Places,
    /// APPLY AS DELETE WHEN, over the columns of the source.
    pub delete_when: Option<Expr>,
    /// APPLY AS TRUNCATE WHEN, over the columns of the source.
    pub truncate_when: Option<Expr>,
    /// COLUMNS, as places among the columns of the source.
    pub outputs: Places,
    /// IGNORE NULL UPDATES.
    pub ignore_null: bool,
    /// Whether the target keeps history, as SCD type 2.
    pub scd2: bool,
    /// TRACK HISTORY ON, as places among the outputs.
    pub tracked: Places,
    /// The output columns, which the target's expectations see.
    pub given: Schema,
    /// The columns of the target: the outputs, and for SCD type 2 then `__START_AT` and `__END_AT`.
    pub columns: Schema,
}

/// The clauses of a change feed that name columns, and the columns that it gives.
#[derive(Debug, Drop)]
pub struct FeedColumns {
    pub keys: Places,
    pub sequence: Places,
    pub outputs: Places,
    pub tracked: Places,
    pub given: Schema,
    pub columns: Schema,
}

/// The conditions of a change feed, over the columns of its source.
#[derive(Debug, Drop)]
pub struct Conditions {
    pub delete_when: Option<Expr>,
    pub truncate_when: Option<Expr>,
}

/// Why a change feed gives nothing.
#[derive(Debug, Drop)]
pub enum FeedEnd {
    /// The first check that is broken.
    Fault(CheckFault),
    /// Want of memory, which no check gives. A place is a `u32`, so a source of more than 2^32
    /// columns is taken for that too.
    Memory,
}

impl From<AllocError> for FeedEnd {
    ghost use Rattle.std.specs.Prelude.{◌≡◌};
    ghost use Rattle.feed_checks.specs.declared.parts.FeedEnd.TheVariants.{Memory};

    ghost from_gives = { λ _ e. e ≡ Memory };

    fn from(_: AllocError) -> FeedEnd {
        FeedEnd::Memory
    }
}
