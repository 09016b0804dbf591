//! The columns of a table beside those that are declared or that a flow gives.
#![tactic(auto)]

mod by_name;
mod tables;

pub use by_name::{gives_table, items_at, places_by_name};
pub use tables::{columns_declared, declares_table, few_in_table};

#[cfg(test)]
mod tests;
