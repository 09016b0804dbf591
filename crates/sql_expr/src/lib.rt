//! Expressions of the pipeline's language: the grammar, its reader and the law of its print.
#![tactic(auto)]

mod entry;
pub mod error;
mod grammar;
mod operators;

pub use entry::{print_is_read, read};
pub use grammar::expr;

#[cfg(test)]
mod tests;
