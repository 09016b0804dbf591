//! The lexemes of a pipeline's text: what its tokens are to the grammar.
#![tactic(auto)]

mod laws;
mod lexing;

pub use laws::lexemes_read_back;
pub use lexing::{Lexemes, lexemes};

#[cfg(test)]
mod tests;
