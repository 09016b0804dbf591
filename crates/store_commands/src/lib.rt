//! The commands that need a store alone: a table is printed as of a version, the counts of expectations
//! are, and the store is folded into its other file.
#![tactic(auto)]

mod compacting;
mod measuring;
mod showing;

pub use compacting::compact;
pub use measuring::metrics;
pub use showing::show;

#[cfg(test)]
mod tests;
