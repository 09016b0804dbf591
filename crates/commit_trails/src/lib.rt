//! What a crash leaves of a store while payloads are committed to it, as definitions and laws. There is
//! no code to run here: a caller names a law by calling it, and has its fact then.
#![tactic(auto)]

mod laws;

pub use laws::{
    a_commit_leaves_a_trail, a_compaction_leaves_a_trail, a_load_leads_a_trail,
    a_refused_load_leaves_a_trail, a_stint_leaves_states, a_trail_leaves_states,
    nothing_tried_leaves_a_trail, stints_join, trails_join,
};

#[cfg(test)]
mod tests;
