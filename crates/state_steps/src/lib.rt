//! What a store stands for, the steps that it may take, and what a full refresh gives, as definitions,
//! with the laws over them. There is no code to run here: a caller names a law by calling it, and has
//! its fact then.
#![tactic(auto)]

mod laws;

pub use laws::{
    a_commit_follows_a_standing_store, a_commit_keeps_a_store_standing,
    a_commit_leaves_lesser_levels_at_their_ends, a_full_refresh_has_one_answer,
    a_reading_finds_what_is_between, a_standing_store_is_a_store, a_store_at_its_end_is_fresh,
    definitions_have_their_parts, flows_that_run_level_by_level_end, growth_keeps_a_store_standing,
    nothing_stands, steps_keep_a_store_standing, steps_keep_the_shape,
};
