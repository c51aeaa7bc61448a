//! The command that serves connections, from its study to its text.
#![tactic(auto)]

mod serving;
mod writing;

pub use serving::serve_study;
pub use writing::write_served;
