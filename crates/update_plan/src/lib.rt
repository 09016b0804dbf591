//! What an update commits before its flows, and why it is refused: a checked plan beside what is stored.
#![tactic(auto)]

mod copies;
mod edges;
mod ends;
mod laws;
mod payloads;
mod planning;
mod resets;

pub use ends::{PlanEnd, Refresh};
pub use laws::{
    an_accepted_store_is_of_the_plan, an_update_is_accepted_where_texts_are_equal,
    planned_payloads_are_commits,
};
pub use planning::plan_update;

#[cfg(test)]
mod tests;
