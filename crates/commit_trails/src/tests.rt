// Each law is named by calling it, of a disk in memory.
use crate::{
    a_commit_leaves_a_trail, a_compaction_leaves_a_trail, a_load_leads_a_trail,
    a_refused_load_leaves_a_trail, a_stint_leaves_states, a_trail_leaves_states,
    nothing_tried_leaves_a_trail, stints_join, trails_join,
};
use disk_model::MemDisk;

#[test]
fn each_law_is_of_a_disk_in_memory() {
    nothing_tried_leaves_a_trail::<MemDisk>();
    a_commit_leaves_a_trail::<MemDisk>();
    trails_join::<MemDisk>();
    a_compaction_leaves_a_trail::<MemDisk>();
    a_trail_leaves_states::<MemDisk>();
    a_load_leads_a_trail::<MemDisk>();
    a_refused_load_leaves_a_trail::<MemDisk>();
    stints_join::<MemDisk>();
    a_stint_leaves_states::<MemDisk>();
}
