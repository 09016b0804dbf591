//! The current rows of a change feed, SCD type 1 (Databricks documentation, AUTO CDC): for each key a tombstone and a stamp a
//! column, so that events are taken in any order of arrival, and what further events do to the rows of the table.
#![tactic(auto)]

mod cells;
mod current;
mod keys;
mod laws;
mod rows;
mod sequences;
mod turns;

pub use current::Current;
pub use laws::{events_may_be_sorted, events_without_ties_have_own_moments};

#[cfg(test)]
mod tests;
