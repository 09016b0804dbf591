//! What the parts of a payload may be: which payloads have a spelling, and which definitions, rows, counts, events and
//! saved datasets are of the defined shape. All of it goes by plain lists; no store is needed here.
#![tactic(auto)]

mod bag;
mod base;
mod definitions;
mod equal;
mod events;
mod places;
mod rows;
mod spelling;

pub use base::is_store;
pub use definitions::{are_distinct, begins_with, is_append, is_view, names_differ};
pub use events::{are_new, events_fit};
pub use places::{files_move, flow_named};
pub use rows::{all_fit, are_counts, counts_fit, holds};
pub use spelling::is_writable;

#[cfg(test)]
mod tests;
