//! What a pipeline's statements are checked for, and the plan where no check is broken.
#![tactic(auto)]

mod checking;
mod fault;
mod form;
mod laws;
mod names;
mod outputs;
mod table;

pub use checking::check;
pub use fault::{CheckFault, CheckRefusal};
pub use laws::{checked_plans_are_sound, checked_tables_keep_text, statements_have_one_answer};

#[cfg(test)]
mod tests;
