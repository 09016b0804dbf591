//! The names that a pipeline's statements use: each is a dataset's, and no dataset reads itself.
#![tactic(auto)]

mod edges;
mod names;
mod sources;

pub use edges::{LevelEnd, levels_of};
pub use names::first_break;
pub use sources::{reader_name, source_name, target_name};

#[cfg(test)]
mod tests;
