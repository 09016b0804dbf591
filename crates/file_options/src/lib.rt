//! What `read_files` reads, by the rules of its path and its options.
#![tactic(auto)]

mod ending;
mod files;
mod laws;
mod options;
mod path;
mod schema;

pub use ending::OptionEnd;
pub use files::{FilesRead, files_of};
pub use laws::{options_have_one_answer, rescued_columns_are_texts};

#[cfg(test)]
mod tests;
