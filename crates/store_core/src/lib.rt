//! A store of datasets over the log of one file: what was committed, and nothing else, is there again
//! after a crash.
#![tactic(auto)]

mod begin;
mod bodies;
mod commit;
mod laws;
mod load;
mod refusal;
mod store;

pub use commit::CommitEnd;
pub use laws::{
    a_file_has_one_state, a_log_that_goes_on_keeps_its_epoch, a_refused_file_is_spared,
    a_state_comes_of_payloads,
};
pub use refusal::StoreRefusal;
pub use store::Store;

#[cfg(test)]
mod tests;
