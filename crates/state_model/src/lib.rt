//! What a store knows of its datasets, what each payload makes of it, and when a payload follows, as definitions with a
//! few laws over them. There is no code to run here: a caller names a law by calling it, and has its fact then.
#![tactic(auto)]

mod laws;

pub use laws::{
    a_saved_store_is_read_back, names_stay_distinct, payloads_are_worked, payloads_come_one_by_one,
    versions_are_left_or_one_is_full,
};
