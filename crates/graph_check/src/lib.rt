//! Graphs of nodes that read one another: their levels, the path of a cycle, and what reads from a set.
#![tactic(auto)]

mod cycle;
mod heights;
mod laws;
mod marking;
mod numbers;

pub use heights::{GraphEnd, levels};
pub use laws::{
    closure_holds_its_readers, closure_is_least, levels_are_one, levels_have_no_cycle,
    sources_are_lower,
};
pub use marking::closure;
pub use numbers::{LevelList, Numbers, Places};

#[cfg(test)]
mod tests;
