//! What a checked pipeline is made of, and what stops a flow.
#![tactic(auto)]

mod expectation;
mod flow;
mod folded;
mod plan;
mod query;
mod stop;

pub use expectation::{Action, Expectation, Expectations, Verdict};
pub use flow::{AppendFlow, AppendFlows, Cdc, Exprs, Origin};
pub use plan::{Body, Dataset, Plan};
pub use query::{Item, Items, Query};
pub use stop::{FlowEnd, Place, Stop, StopOr};

#[cfg(test)]
mod tests;
