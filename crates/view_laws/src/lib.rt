//! Bags by their sums, and what a change of a view's source does to its result.
#![tactic(auto)]

mod laws;

pub use laws::{a_change_moves_a_bag, a_view_turns_by_its_change};
