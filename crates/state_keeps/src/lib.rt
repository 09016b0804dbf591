//! What follows a store leads to a store again, as laws over the definitions of what a store knows. There is no code to
//! run here: a caller names a law by calling it, and has its fact then.
#![tactic(auto)]

mod laws;

pub use laws::{
    a_folded_store_is_a_store, a_store_may_begin_a_log, no_datasets_are_a_store,
    what_follows_keeps_a_store,
};
