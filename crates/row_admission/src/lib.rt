//! What the expectations of a dataset make of a row, and the counts of what they passed.
#![tactic(auto)]

mod admission;
mod marks;
mod sums;

pub use admission::admit;
pub use marks::Marks;
pub use sums::add;

#[cfg(test)]
mod tests;
