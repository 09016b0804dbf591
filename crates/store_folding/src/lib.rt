//! Compaction: the datasets of a store as one record, without the versions that no flow and no view has still to read.
#![tactic(auto)]

mod base;
mod copies;
mod readers;

pub use base::fold;

#[cfg(test)]
mod tests;
