//! The datasets of a store in memory: what each payload makes of them, and what takes one back.
#![tactic(auto)]

mod contents;
mod find;
mod kept;
mod members;
mod part;
mod put;
mod undo;

pub use contents::Contents;
pub use kept::Kept;
pub use part::Rest;
pub use undo::Undo;

#[cfg(test)]
mod tests;
