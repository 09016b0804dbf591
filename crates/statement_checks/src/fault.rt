use value_core::{Name, Text};

/// How a statement breaks a check. A name has the spelling that it has where the check is broken.
#[derive(Debug, Drop)]
pub enum CheckFault {
    /// A name that occurs before: of a dataset, of a flow, of a column or an expectation of one
    /// dataset, or in one list of names.
    Duplicate { name: Name },
    /// More than a limit allows: the limit plus 1.
    TooMany { count: u32 },
    /// No dataset or column has this name.
    UnknownName { name: Name },
    /// A flow fills a view, or reads this dataset, or `read_files`, not as a stream.
    NotStreaming { name: Name },
    /// The options of `read_files` break a rule, or TRACK HISTORY stands with SCD type 1.
    BadOption { word: Text },
    /// A view reads a stream or files.
    NotBatch,
    /// A flow streams from a view or from a table that a change feed keeps.
    StreamOfChanging,
    /// A table has a change feed and another flow.
    MixedFlows,
    /// A streaming flow has GROUP BY or an aggregate.
    AggregateInStream,
    /// An expression has no kind, or one that its place doesn't take.
    TypeMismatch,
    /// In a query with groups or aggregates the output of this number from 1 is neither.
    NotGrouped { item: u32 },
    /// The output of this number from 1 has no name.
    NoName { item: u32 },
    /// A key is no output.
    KeyNotOutput { name: Name },
    /// A change feed of SCD type 2 has a truncate clause.
    TruncateScd2,
    /// A change feed of SCD type 2 has a sequence of several parts.
    StructSequence,
    /// A table's columns are not those that are declared or wanted: the first that differs or is too
    /// many.
    SchemaDiffers { name: Name },
    /// A streaming table has no flow.
    NoFlow { name: Name },
}

/// A check that is broken, and where.
#[derive(Debug, Drop)]
pub struct Break {
    /// The number of the statement, from 1.
    pub statement: u32,
    pub fault: CheckFault,
}
