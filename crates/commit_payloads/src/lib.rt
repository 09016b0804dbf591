//! What a store commits, and its bytes.
#![tactic(auto)]

mod definition;
mod definition_field;
mod form;
mod laws;
mod origin;
mod payload;
mod reading;
mod state;
mod state_field;
mod take;
mod take_field;
mod writing;

pub use definition::{
    Definition, Definitions, StoredAction, StoredBody, StoredExpectation, StoredExpectations,
    StoredFlow, StoredFlows, StoredOrigin,
};
pub use laws::payloads_have_one_spelling;
pub use payload::{Payload, Payloads};
pub use reading::read;
pub use state::{DatasetState, DatasetStates, State};
pub use take::{Refresh, Take};
pub use writing::write;

#[cfg(test)]
mod tests;
