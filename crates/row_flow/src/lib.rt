//! What a flow makes of its rows, by several workers: its batch, or the stop of the first row that has
//! one.
#![tactic(auto)]

mod append;
mod batch;
mod feed;
mod gather;
mod input;
mod outcomes;
mod result;

pub use batch::{Batch, EventBatch, append_batch, event_batch};
pub use input::Input;

#[cfg(test)]
mod tests;
