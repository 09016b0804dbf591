use row_expr::Expr;
use value_core::{ListOf, Name};

/// What becomes of a row that an expectation doesn't pass (Databricks SQL reference,
/// CREATE STREAMING TABLE, `ON VIOLATION`).
#[derive(Clone, Copy, PartialEq, Eq, Debug)]
pub enum Action {
    /// The row is written, and counted as failed. It is so where no action is named.
    Warn,
    /// The row is not written.
    DropRow,
    /// The flow stops, and nothing of its batch is written.
    FailUpdate,
}

/// A named test of the rows of a dataset (Databricks SQL reference, CREATE STREAMING TABLE,
/// `CONSTRAINT .. EXPECT`). A row passes where the test is TRUE.
#[derive(Debug, Drop)]
pub struct Expectation {
    pub name: Name,
    /// A BOOLEAN over the dataset's output columns.
    pub test: Expr,
    pub action: Action,
}

/// Expectations in declared order.
pub type Expectations = ListOf<Expectation>;

/// What the expectations make of a row.
#[derive(Debug, Drop)]
pub enum Verdict {
    Keep,
    DropIt,
    /// The first failing expectation that stops the flow.
    Fail { name: Name },
}
