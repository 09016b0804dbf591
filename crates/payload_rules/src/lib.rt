//! Which payloads may follow what a store has.
#![tactic(auto)]

mod batch;
mod cursors;
mod payloads;
mod rows;

pub use payloads::{fits, follows, full_version};

#[cfg(test)]
mod tests;
