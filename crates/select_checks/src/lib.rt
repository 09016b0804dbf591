//! What a select gives over the columns that it reads, as a streaming flow and as the query of a
//! view, and the expectations of a dataset over its columns.
#![tactic(auto)]

mod end;
mod expectations;
mod grouping;
mod items;
mod kinded;
mod laws;
mod naming;
mod outputs;
mod stream;
mod view;

pub use end::SelectEnd;
pub use expectations::check_expectations;
pub use laws::{
    checked_expectations_are_sound, checked_streams_are_sound, checked_views_are_sound,
};
pub use stream::{StreamSelect, check_stream_select};
pub use view::{ViewSelect, check_view_select};

#[cfg(test)]
mod tests;
