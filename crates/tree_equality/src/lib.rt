//! When two expressions are the same, and which of several an expression is.
#![tactic(auto)]

mod codes;
mod table;

pub use table::TreeTable;

#[cfg(test)]
mod tests;
