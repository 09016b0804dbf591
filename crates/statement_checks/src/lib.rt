//! What each statement of a pipeline is checked for by what it declares: the limits, and names that
//! occur twice.
#![tactic(auto)]

mod breaks;
mod declared;
mod duplicates;
mod fault;
mod folded;
mod limits;
mod repeats;

pub use breaks::first_break;
pub use declared::{dataset_name, flow_name};
pub use fault::{Break, CheckFault};

#[cfg(test)]
mod tests;
