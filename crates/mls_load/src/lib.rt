//! What both programs begin with: the words of the command line, the checkpoint stores, the study of a name and its tape.
#![tactic(auto)]

mod loading;
mod refusal;
mod system;
mod tapes;
mod words;

pub use loading::{load, load_study};
pub use refusal::Refusal;
pub use system::{checkpoint_stores, program_words};
pub use tapes::load_tape;
pub use words::{WordsFault, are_words};
