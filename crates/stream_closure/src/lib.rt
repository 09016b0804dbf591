//! Which datasets a reset takes along: the closure of a set in the graph of tables that stream from
//! one another. There is no code to run here: a caller names a law by calling it, and has its fact then.
#![tactic(auto)]

mod laws;

pub use laws::{a_closure_is_a_reset, a_closure_is_closed, a_plan_has_its_edges};
