//! What is kept of each group of a view's source rows, and what a group gives to the result.
#![tactic(auto)]

mod bag;
mod cell;
mod group;
mod groups;
mod query;
mod share;

pub use groups::{Gives, Groups, Turned, group_rows};
pub use query::is_grouped;
pub use share::{Share, part_of, project, stop_by};

#[cfg(test)]
mod tests;
