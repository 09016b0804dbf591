//! What each statement reads, and the checks of what a flow and a view may read.
#![tactic(auto)]

mod origins;
mod resolved;

pub use origins::{batch_break, columns_read, origin_of, stream_break};
pub use resolved::{Resolved, ResolvedOrigins, Source, all_resolved};

#[cfg(test)]
mod tests;
