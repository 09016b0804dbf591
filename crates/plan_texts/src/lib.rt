//! Laws of the texts of datasets: where two pipelines have the texts of some datasets and of all that these read in common,
//! they have the datasets in common. There is no code to run here: a caller names a law by calling it, and has its fact then.
#![tactic(auto)]

mod laws;

pub use laws::{datasets_of_one_text_are_one, plans_are_judged, prints_tell_parts_apart};
