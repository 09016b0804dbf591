//! The tokens of a pipeline's text, which is SQL as Databricks writes it (Databricks SQL language reference, lexical
//! elements: identifiers, literals, comments).
#![tactic(auto)]

mod error;
mod lexical;
mod scan;
mod token;

pub use error::SqlRefusal;
pub use lexical::capped_value;
pub use scan::{MAX_TEXT, scan_is_one, tokens};
pub use token::{Token, TokenKind, TokenList};

#[cfg(test)]
mod tests;
