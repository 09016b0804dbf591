//! Laws of SCD type 1 over events that come in any order (Databricks documentation, AUTO CDC, SCD type 1). There is no code
//! to run here: a caller names a law by calling it, and has its fact then.
#![tactic(auto)]

mod laws;

pub use laws::{
    a_row_is_read_in_any_order, current_rows_are_told_in_any_order, stamps_take_any_order,
};

#[cfg(test)]
mod tests;
