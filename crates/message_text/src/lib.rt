//! Why a run ends, its status, and the lines that are printed of it; and the lines of a checked plan and
//! of a compaction.
#![tactic(auto)]

mod faults;
mod lines;
mod message;
mod plans;
mod refusal;
mod refused;
mod status;

pub use message::{compacted_line, message_line};
pub use plans::plan_lines;
pub use refusal::Refusal;
pub use status::{Status, status_of};

#[cfg(test)]
mod tests;
