//! A view that is kept up from the changes of its source alone.
#![tactic(auto)]

mod building;
mod parts;
mod settling;
mod tallies;
mod view;

pub use view::{Turn, View};

#[cfg(test)]
mod tests;
