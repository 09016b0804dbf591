//! A small store worked by hand against the definition of what a store stands for. There is no code to
//! run here.
#![tactic(auto)]

mod laws;

pub use laws::{a_failing_flow_stays_behind, a_store_stands_as_worked};
