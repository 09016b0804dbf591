//! A change feed of any length and a pipeline over it, made from a number: the same bytes each time.
#![tactic(auto)]

mod feed;
mod pipeline;

pub use feed::lines;
pub use pipeline::PIPELINE;

#[cfg(test)]
mod tests;
