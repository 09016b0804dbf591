//! Values, rows and events as bytes, one spelling each.
#![tactic(auto)]

mod change;
mod cursor;
mod event;
mod field;
mod fields;
mod kind;
mod laws;
mod list;
mod number;
mod rows;
mod text;
mod value;
mod whole;

pub use event::has_its_parts;
pub use field::Field;
pub use fields::{
    put_event, put_number, put_row, put_text, take_event, take_number, take_row, take_text,
};
pub use laws::{fields_have_one_spelling, rows_have_one_spelling};
pub use rows::{read_rows, write_rows};
pub use whole::{read_whole, write_whole};

#[cfg(test)]
mod tests;
