//! What a disk holds stands, whatever texts its datasets came from, as definitions and laws. There is no
//! code to run here: a caller names a law by calling it, and has its fact then.
#![tactic(auto)]

mod laws;

pub use laws::{
    a_compaction_keeps_standing, a_loaded_store_stands, a_standing_store_is_ours,
    an_accepted_update_is_of_the_plan, an_empty_store_stands, an_update_keeps_standing,
    an_update_of_any_text_keeps_standing, commits_keep_standing, growth_keeps_standing,
    moments_of_standing_join, trails_keep_standing,
};

#[cfg(test)]
mod tests;
