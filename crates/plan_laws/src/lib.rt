//! What a plan that the checks give is, whatever the statements are: it is sound, its files keep
//! rescued text, and the flows of a table differ in name. There is no code to run here: a caller
//! names a law by calling it, and has its fact then.
#![tactic(auto)]

mod laws;

pub use laws::{checked_plans_are_sound, checked_plans_keep_text, flows_of_checked_plans_differ};

#[cfg(test)]
mod tests;
