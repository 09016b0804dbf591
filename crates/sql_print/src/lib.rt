//! The canonical print of a pipeline's statements: one text for all texts that mean the same.
#![tactic(auto)]

mod expressions;
mod statements;
mod writer;

pub use statements::{print, print_placed};

#[cfg(test)]
mod tests;
