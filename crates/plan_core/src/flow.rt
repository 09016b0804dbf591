use row_expr::Expr;
use value_core::{ListOf, Name, Places, Shape, Text};

/// Expressions in order.
pub type Exprs = ListOf<Expr>;

/// What a flow reads.
#[derive(Debug, Drop)]
pub enum Origin {
    /// The lines of the files of a landing folder (Databricks SQL reference, `read_files`).
    Files { dir: Text, shape: Shape },
    /// The rows that another dataset gains.
    Table { name: Name },
}

/// A flow that appends to its table (Databricks SQL reference, CREATE STREAMING TABLE and
/// CREATE FLOW).
#[derive(Debug, Drop)]
pub struct AppendFlow {
    pub name: Name,
    pub origin: Origin,
    /// WHERE: only the rows where it is TRUE are taken.
    pub filter: Option<Expr>,
    /// The columns of the table, over the columns of the origin.
    pub outputs: Exprs,
}

/// Flows in declared order.
pub type AppendFlows = ListOf<AppendFlow>;

/// A flow that applies a change feed (Databricks SQL reference, AUTO CDC INTO).
#[derive(Debug, Drop)]
pub struct Cdc {
    pub name: Name,
    pub origin: Origin,
    /// KEYS, as places among the outputs.
    pub keys: Places,
    /// SEQUENCE BY, as places among the columns of the origin.
    pub sequence: Places,
    /// APPLY AS DELETE WHEN, over the columns of the origin.
    pub delete_when: Option<Expr>,
    /// APPLY AS TRUNCATE WHEN, over the columns of the origin.
    pub truncate_when: Option<Expr>,
    /// COLUMNS, as places among the columns of the origin.
    pub outputs: Places,
    /// IGNORE NULL UPDATES: a NULL column of an upsert keeps the value that is there.
    pub ignore_null: bool,
    /// Whether the target keeps each row's history, as SCD type 2, and not the current rows alone.
    pub scd2: bool,
    /// TRACK HISTORY ON, as places among the outputs.
    pub tracked: Places,
}
