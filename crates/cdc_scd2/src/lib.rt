//! SCD type 2 of one key, kept by splices: a late event changes the rows of the runs that it touches, and looks at no
//! other entry of the history (Databricks documentation, AUTO CDC).
#![tactic(auto)]

mod change;
mod laws;
mod splicing;
mod zone;

pub use laws::{an_event_changes_its_key_alone, changes_stay_in_the_middle, touches_are_worked};
pub use splicing::splice;

#[cfg(test)]
mod tests;
