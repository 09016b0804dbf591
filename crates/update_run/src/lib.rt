//! The flows of an update, in order: folders are listed, and then each flow of the plan runs once, level
//! by level.
#![tactic(auto)]

mod listing;
mod order;
mod running;
mod telling;
mod update;

pub use listing::list_all;
pub use update::run_update;

#[cfg(test)]
mod tests;
