//! What the checks of a pipeline make of one dataset: its statement and the flows that fill it, over
//! the datasets that they read.
#![tactic(auto)]

mod appending;
mod datasets;
mod end;
mod feeding;
mod filling;
mod parts;
mod reading;
mod tables;
mod viewing;

pub use datasets::dataset_at;
pub use end::DatasetEnd;
pub use filling::dataset_places;

#[cfg(test)]
mod tests;
