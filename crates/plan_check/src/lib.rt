//! The checks of a pipeline's statements, phase by phase, and the plan where none is broken.
#![tactic(auto)]

mod checking;
mod laws;
mod placing;
mod refusal;
mod visits;
mod walking;

pub use checking::check;
pub use laws::{
    plans_have_different_names, plans_have_lesser_sources, plans_have_the_declared_names,
};
pub use refusal::CheckRefusal;

#[cfg(test)]
mod tests;
