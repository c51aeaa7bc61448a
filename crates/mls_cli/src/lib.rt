//! The commands of the program `melissa` over files, a sink and keepers, and the program itself.
#![tactic(auto)]

mod bins;
mod commands;
mod design;
mod export;
mod fold;
mod fold_inputs;
mod loading;
mod openings;
mod output;
mod program;
mod refusal;
mod resume;
mod saving;
mod trial;
mod watch;
mod words;
mod written;

pub use commands::melissa;
pub use output::BufferedSink;
pub use program::{run_over, run_program};
pub use words::{NamePair, Words, WordsFault, read_words};
