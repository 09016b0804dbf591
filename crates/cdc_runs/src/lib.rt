//! The runs of one key's history: maximal stretches of consecutive upserts whose tracked columns agree, each of them one
//! row of SCD type 2 (Databricks documentation, AUTO CDC). Rows are told run by run, and where a run begins and ends is
//! found by looking at its own entries alone.
#![tactic(auto)]

mod columns;
mod intervals;
mod laws;
mod run;

pub use columns::{after, effective, is_same};
pub use intervals::{end_runs, first_of, row_of, runs_on, sequence_of, start_of};
pub use laws::{changes_carry_on, runs_are_intervals};
pub use run::{run_end, run_start};

#[cfg(test)]
mod tests;
