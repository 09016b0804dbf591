// Each law is named by calling it, of a disk in memory.
use crate::{
    a_compaction_keeps_standing, a_loaded_store_stands, a_standing_store_is_ours,
    an_accepted_update_is_of_the_plan, an_empty_store_stands, an_update_keeps_standing,
    an_update_of_any_text_keeps_standing, commits_keep_standing, growth_keeps_standing,
    moments_of_standing_join, trails_keep_standing,
};
use disk_model::MemDisk;

#[test]
fn each_law_is_of_a_disk_in_memory() {
    an_empty_store_stands();
    commits_keep_standing();
    an_accepted_update_is_of_the_plan();
    an_update_keeps_standing();
    an_update_of_any_text_keeps_standing();
    a_compaction_keeps_standing();
    trails_keep_standing::<MemDisk>();
    moments_of_standing_join::<MemDisk>();
    a_loaded_store_stands::<MemDisk>();
    a_standing_store_is_ours::<MemDisk>();
    growth_keeps_standing::<MemDisk>();
}
