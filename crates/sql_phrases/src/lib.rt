//! A place in a list of tokens and what can be read there: the base of the readers of expressions and of statements.
#![tactic(auto)]

mod error;
mod reader;
mod tokens;

pub use error::ReadError;
pub use reader::Reader;
