//! Names in a select: those that it reads, and those that its outputs have; and where aggregates
//! stand.
#![tactic(auto)]

mod aggregates;
mod folded;
mod names;
mod repeats;

pub use aggregates::{has_aggregate, is_aggregate_call, is_grouped_select};
pub use names::{column_name, is_left, out_name, unknown_name, unnamed_output};
pub use repeats::repeated_output;
