//! The least change that makes one bag of rows another, and the one change that several come to.
#![tactic(auto)]

mod laws;
mod merge;

pub use laws::{changes_have_one_net, nets_follow, nets_within};
pub use merge::net;

#[cfg(test)]
mod tests;
