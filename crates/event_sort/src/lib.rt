//! Events by key and then by sequence.
#![tactic(auto)]

mod sort;

pub use sort::sorted_events;

#[cfg(test)]
mod tests;
