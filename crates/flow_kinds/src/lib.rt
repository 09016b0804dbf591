//! What flows, change feeds and views give fits the columns of what they fill, as laws over their definitions. There is
//! no code to run here: a caller names a law by calling it, and has its fact then.
#![tactic(auto)]

mod laws;

pub use laws::{
    append_rows_fit_the_table, events_are_of_their_kinds, feed_rows_fit_the_table,
    view_rows_fit_the_view,
};
