//! One flow of an update: from what stands before it to its end, with one commit or none.
#![tactic(auto)]

mod committing;
mod ends;
mod engine;
mod flow;
mod flow_id;
mod listings;
mod load;
mod offered;
mod running;
mod settle;

pub use committing::commit;
pub use ends::{End, LoadEnd};
pub use engine::Engine;
pub use flow::run_flow;
pub use flow_id::FlowId;
pub use listings::{FolderOf, Listings};
