//! The history of one key of a change feed: its events in order of sequence, each with the effective columns after it.
#![tactic(auto)]

mod history;

pub use history::{Entry, History, Place};

#[cfg(test)]
mod tests;
