//! What the checks of a pipeline's statements answer is one: one path shows a cycle, and what a statement reads is resolved
//! in one way. There is no code to run here: a caller names a law by calling it, and has its fact then.
#![tactic(auto)]

mod laws;

pub use laws::{
    checks_give_no_memory, cycles_have_one_named_path, graphs_have_one_path,
    origins_are_resolved_in_one_way, statements_have_one_answer, two_checks_tell_the_same,
};

#[cfg(test)]
mod tests;
