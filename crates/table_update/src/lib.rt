//! One update of one append table, or of a pipeline without one: what is new in the table's landing folder
//! goes into the store.
#![tactic(auto)]

mod commit;
mod end;
mod end_laws;
mod flow;
mod judge;
mod news;
mod nothing;
mod one_update;
mod rows;
mod run;
mod standing_laws;
mod table;

pub use end::UpdateEnd;
pub use end_laws::{
    an_update_has_one_end, an_update_is_unfit_only_for_another_definition,
    an_update_succeeds_where_nothing_is_refused, settled_files_are_alike,
};
pub use one_update::update;
pub use standing_laws::{
    a_completed_update_is_a_full_refresh, a_new_file_stands, an_update_keeps_a_table_standing,
    growth_keeps_a_table_standing,
};
pub use table::{AppendTable, Output, Outputs};

#[cfg(test)]
mod tests;
