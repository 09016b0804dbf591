//! Pipelines from tokens: the statements of the language, their grammar and their reader.
#![tactic(auto)]

mod entry;
mod error;
mod laws;
mod outermost;
mod part;
mod query;
mod statement;
mod token;

pub use entry::read_tokens;
pub use error::Refusal;
pub use laws::{answers_are_one, print_is_read};

#[cfg(test)]
mod tests;
