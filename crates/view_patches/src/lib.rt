//! What a change of a view's source rows does to the view's groups.
#![tactic(auto)]

mod patch;
mod sides;
mod walk;

pub use patch::Patches;
pub use sides::{Side, Sides};

#[cfg(test)]
mod tests;
