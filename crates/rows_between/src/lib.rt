//! The rows of a landing folder between two lists of places, as one list in one order. There is no code
//! to run here: a caller names a law by calling it, and has its fact then.
#![tactic(auto)]

mod laws;

pub use laws::{
    a_reading_finds_the_rows_between, growth_keeps_the_rows_between, rows_between_come_behind,
};
