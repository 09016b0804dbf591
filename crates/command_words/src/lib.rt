//! The words of the program's command line: three paths, and then commands with the word `then`
//! between two of them.
#![tactic(auto)]

mod arguments;
mod command;
mod number;
mod parts;
mod refresh;
mod values;

pub use command::Command;
pub use parts::commands;

#[cfg(test)]
mod tests;
