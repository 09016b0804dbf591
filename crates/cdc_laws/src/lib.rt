//! What a bound on the looks of a splice comes to for the rows of a table. There is no code to run here: a caller names a
//! law by calling it, and has its fact then.
#![tactic(auto)]

mod laws;

pub use laws::what_is_touched_is_moved;

#[cfg(test)]
mod tests;
