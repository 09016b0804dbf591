//! The printed bytes of a table, of the counts of expectations, and of a flow's end.
#![tactic(auto)]

mod ends;
mod metrics;
mod rows;
mod stops;
mod words;

pub use ends::flow_line;
pub use metrics::{metrics_head, put_metrics};
pub use rows::table_text;
pub use words::{put, put_counted, put_named, put_word};

#[cfg(test)]
mod tests;
