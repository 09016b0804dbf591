//! The events of a change feed that are kept: which are new, which repeat one, and which are tied with one.
#![tactic(auto)]

mod insertion;
mod ledger;
mod spot;

pub use insertion::Insertion;
pub use ledger::Ledger;

#[cfg(test)]
mod tests;
