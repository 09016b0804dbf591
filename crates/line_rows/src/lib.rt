//! The row of a line of JSON or CSV.
#![tactic(auto)]

mod csv_line;
mod json_line;
mod laws;
mod line;
mod reading;
mod text;

pub use laws::fields_of_a_text_are_texts;
pub use line::row_of;

#[cfg(test)]
mod tests;
