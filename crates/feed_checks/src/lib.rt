//! What an AUTO CDC statement gives over the columns of its source, or the first check that it
//! breaks.
#![tactic(auto)]

mod checks;
mod conditions;
mod feed;
mod laws;
mod names;
mod parts;
mod places;

pub use feed::{check_feed, track_fault};
pub use laws::{feeds_are_sound, targets_have_kinds};
pub use parts::{FeedEnd, FeedParts};

#[cfg(test)]
mod tests;
