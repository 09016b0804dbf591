//! Whether the flows of a plan can go on from a store, and what keeps it so.
#![tactic(auto)]

mod laws;
mod position;
mod same;
mod unfit;

pub use laws::{a_batch_keeps_a_store_ready, a_store_has_one_answer, a_store_that_stands_fits};
pub use unfit::first_unfit;

#[cfg(test)]
mod tests;
