//! The datasets of a checked plan as a store defines them.
#![tactic(auto)]

mod parts;
mod sequence;
mod stored;

pub use stored::{definition_of, definitions_of};

#[cfg(test)]
mod tests;
