//! The current rows of a change feed, by a stamp a column.
#![tactic(auto)]

mod laws;

pub use laws::a_row_is_read_by_its_stamps;
