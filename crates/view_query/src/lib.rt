//! What a view holds by its query and its expectations, by a plain pass over its source.
#![tactic(auto)]

mod asking;
mod counting;
mod judging;
mod order;
mod pass;

pub use asking::ask;
pub use judging::{Judged, judge, refresh};
pub use order::in_order;

#[cfg(test)]
mod tests;
