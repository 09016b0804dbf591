//! The reader of pipeline texts: a text's statements, or the first reason why it has none.
#![tactic(auto)]

mod laws;
mod reader;

pub use laws::{
    a_reading_has_one_print, a_text_has_one_answer, equal_prints_have_equal_statements,
    print_reads_back,
};
pub use reader::read;

#[cfg(test)]
mod tests;
