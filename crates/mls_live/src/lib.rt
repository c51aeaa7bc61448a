//! The commands of the program `melissad` over files, a sink, keepers and a door, and the program itself.
#![tactic(auto)]

mod commands;
mod ending;
mod group;
mod program;
mod running;
mod serving;
mod words;

pub use commands::melissad;
pub use ending::end_run;
pub use mls_load::WordsFault;
pub use program::run_program;
pub use words::{Words, read_words};
