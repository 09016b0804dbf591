//! The typed expressions of written ones.
#![tactic(auto)]

mod operand;
mod typing;

pub use typing::{TypeEnd, first_unknown, typed};

#[cfg(test)]
mod tests;
