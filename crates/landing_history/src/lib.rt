//! What was consumed of landing folders over any number of readings, said from the beginning of each
//! file: laws that tie what one reading finds to what all of them together have taken. There is no
//! code to run here: a caller names a law by calling it, and has its fact then.
#![tactic(auto)]

mod laws;

pub use laws::{
    a_first_reading_takes_all, a_reading_adds_its_lines, a_whole_listing_can_be_read_on,
    growth_goes_file_by_file, growth_takes_nothing, nothing_is_taken_at_first,
    order_of_lines_changes_no_bag, places_have_one_form, reach_is_that_of_a_first_reading,
    reach_is_the_last_end, reach_keeps_ends, readings_find_what_is_taken, what_is_taken_has_ended,
};

#[cfg(test)]
mod tests;
