//! The text of a run: read once, up to a limit, and the plan of its statements.
#![tactic(auto)]

mod built;
mod checked;
mod laws;
mod reading;

pub use checked::{Pipeline, pipeline_of};
pub use laws::built_pipelines_are_append_tables;

#[cfg(test)]
mod tests;
