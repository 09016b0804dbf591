//! What two files stand for: the state to which the payloads of the log of the greater epoch lead, as laws over the
//! definitions. There is no code to run here: a caller names a law by calling it, and has its fact then.
#![tactic(auto)]

mod laws;

pub use laws::{
    a_load_keeps_the_state, a_pair_ends_at_one_place, a_pair_has_one_state, a_payload_leads_on,
    a_refused_pair_is_spared, a_state_comes_of_payloads, the_folded_state_begins_a_log,
};
