//! Laws over the definitions of histories, completion, outcomes and accepted rows.
//!
//! Each public function here has an empty body: its contract is a law that holds of all lists of events.
#![tactic(auto)]

pub mod completion;
pub mod one_client;
pub mod survival;
