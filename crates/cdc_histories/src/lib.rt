//! The histories of a change feed, SCD type 2 (Databricks documentation, AUTO CDC): the events of each key in one ordered
//! map, and what further events do to the rows of the table.
#![tactic(auto)]

mod building;
mod cutting;
mod folding;
mod histories;
mod put;
mod rules;

pub use histories::Histories;

#[cfg(test)]
mod tests;
