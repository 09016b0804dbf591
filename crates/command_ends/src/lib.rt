//! How a command ends, and what each command that needs a store begins and ends with: a store is loaded,
//! and a text is printed.
#![tactic(auto)]

mod loading;
mod printing;

pub use loading::load_store;
pub use printing::print;
