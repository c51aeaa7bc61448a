//! A rank's book in a run that several threads share: what its type keeps of the keeper since the run began, and the
//! lock round it.
#![tactic(auto)]

pub mod held;
pub mod laws;
pub mod run;

pub use held::{Held, RankCell};
pub use run::Run;
