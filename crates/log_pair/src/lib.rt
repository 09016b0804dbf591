//! Two logs, of which the one of the greater epoch counts: one is written anew beside the other.
#![tactic(auto)]

mod laws;
mod load;
mod pair;
mod refusal;

pub use laws::{a_load_keeps_the_bodies, a_lone_log_is_read, two_files_have_one_answer};
pub use pair::Pair;
pub use refusal::{PairRefusal, SwitchEnd};

#[cfg(test)]
mod tests;
