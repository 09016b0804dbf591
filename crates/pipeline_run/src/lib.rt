//! A run of a pipeline: its commands in order, over a store in one file.
#![tactic(auto)]

mod command;
mod end_line;
mod escape;
mod fault_line;
mod in_memory;
mod laws;
mod outcome;
mod pipeline;
mod plan_line;
mod program;
mod report;
mod table;

pub use command::Command;
pub use in_memory::run_in_memory;
pub use laws::{
    a_run_has_one_end, a_store_that_stands_is_never_unfit, a_text_asks_for_one_table,
    commands_stop_where_a_file_shrank, commands_succeed_where_nothing_is_refused,
    each_plan_is_updated, tables_of_one_text_are_one, validates_succeed_where_no_check_is_broken,
};
pub use outcome::{Outcome, Status};
pub use program::run;

#[cfg(test)]
mod growth_tests;
#[cfg(test)]
mod plan_tests;
#[cfg(test)]
mod test_devices;
#[cfg(test)]
mod tests;
#[cfg(test)]
mod word_tests;
