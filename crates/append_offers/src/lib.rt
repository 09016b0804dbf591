//! What one append flow of a streaming table comes to before the disk is called: nothing, a stop, or a
//! batch.
#![tactic(auto)]

mod batch;
mod flow;
mod laws;

pub use flow::append_offer;
pub use flow_news::{FolderListing, Offer};
pub use laws::a_flow_looks_once_at_a_row;

#[cfg(test)]
mod tests;
