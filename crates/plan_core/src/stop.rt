use value_core::{Event, Name, Row, Text};

/// Where a fault stands.
#[derive(Debug, Drop)]
pub enum Place {
    /// At a row of a batch, by its number from 1.
    Number(u64),
    /// At a row of a view, or of what it reads.
    Of(Row),
}

/// Why a flow stopped.
#[derive(Debug, Drop)]
pub enum Stop {
    /// A row fails an expectation whose action is FAIL UPDATE.
    Expect { place: Place, name: Name },
    /// A number outside its kind.
    Overflow { place: Place },
    /// A division by 0.
    ZeroDivisor { place: Place },
    /// A CAST that found no value.
    BadCast { place: Place },
    /// The sequence of a change has a NULL. Rows have numbers from 1.
    NullSequence { row: u64 },
    /// Two changes of one key and one sequence differ.
    Tied { row: u64, kept: Event, later: Event },
    /// The exact total of a group's `sum` is no BIGINT.
    SumOverflow { group: Row, total: i128 },
    /// The rows that an expectation counts pass 2^63 - 1.
    CountOverflow { name: Name, total: u128 },
    /// A file is shorter than the place to which it was read.
    Shrunk { file: Text, cursor: u64, size: u64 },
    /// The landing failed: its count of faults before and after.
    Landing { before: u64, after: u64 },
}

/// Why there is no batch or no refresh.
#[derive(Debug, Drop)]
pub enum StopOr {
    Stop(Stop),
    /// Want of memory, which no definition gives.
    Memory,
}

/// How the run of a flow ended.
#[derive(Debug, Drop)]
pub enum FlowEnd {
    /// It committed this version of its dataset, from so many rows.
    Completed { read: u64, version: u64 },
    /// There was nothing new to read.
    Current,
    /// It committed nothing.
    Stopped { why: Stop },
    /// It didn't run, since that dataset, from which it reads, stopped.
    Skipped { name: Name },
}
