//! What the payloads of a log come to: its datasets, which payload may follow, and what takes one back.
#![tactic(auto)]

mod contents;
mod equal;
mod find;
mod fits_define;
mod fits_take;
mod follows;
mod laws;
mod part;
mod put;
mod table;
mod undo;

pub use contents::Contents;
pub use laws::{names_stay_distinct, payloads_come_one_by_one};
pub use table::Table;
pub use undo::Undo;

#[cfg(test)]
mod tests;
