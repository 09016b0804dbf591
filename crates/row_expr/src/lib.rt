//! Typed expressions over a row: their kinds and their values.
#![tactic(auto)]

mod evaluation;
mod expr;
mod fault;
mod laws;
mod operators;
pub mod sort;

pub use evaluation::eval;
pub use expr::{Arithmetic, Arm, Comparison, Expr};
pub use fault::RowFault;
pub use laws::a_typed_value_fits_its_kind;
pub use sort::Sort;

#[cfg(test)]
mod tests;
