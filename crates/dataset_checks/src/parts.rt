use plan_core::{AppendFlow, Body};
use sqlite_items::Boxed;
use value_core::Schema;

/// A flow into a table, and the columns that the table has of it.
#[derive(Debug, Drop)]
pub struct TableFlow {
    pub flow: AppendFlow,
    pub columns: Schema,
}

/// What fills a dataset.
#[derive(Debug, Drop)]
pub struct DatasetParts {
    pub body: Body,
    pub columns: Schema,
    /// The columns that its expectations see.
    pub seen: Schema,
}

/// What one flow gives to its table.
#[derive(Debug, Drop)]
pub enum FlowParts {
    /// Rows beside those of other flows.
    Appends(Boxed<TableFlow>),
    /// All of it, as a change feed.
    Keeps(Boxed<DatasetParts>),
}
