use crate::flow::Exprs;
use row_expr::Expr;
use value_core::{ListOf, Name};

/// One column of a view. Aggregates skip NULL (Databricks SQL reference, aggregate functions).
#[derive(Debug, Drop)]
pub enum Item {
    /// A group expression, by its place among the groups from 0.
    Key(u32),
    /// An expression over a source row, in a query that doesn't group.
    Plain(Expr),
    /// `count(*)`
    CountAll,
    Count(Expr),
    Sum(Expr),
    Min(Expr),
    Max(Expr),
}

/// Columns of a view in order.
pub type Items = ListOf<Item>;

/// The query of a materialized view (Databricks SQL reference, CREATE MATERIALIZED VIEW).
#[derive(Debug, Drop)]
pub struct Query {
    /// The dataset that is read.
    pub origin: Name,
    /// WHERE: only the rows where it is TRUE are taken.
    pub filter: Option<Expr>,
    /// GROUP BY, over the columns of the dataset that is read.
    pub groups: Exprs,
    pub items: Items,
}
