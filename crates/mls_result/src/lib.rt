//! The result text: what a study's ranks hold, printed; and what the programs answer.
#![tactic(auto)]

mod cells;
mod exceed;
mod extrema;
mod fault;
mod head;
mod indices;
mod laws;
mod lines;
mod ranks;
mod status;
mod text;

pub use fault::FoldFault;
pub use head::{put_step, put_study};
pub use laws::cores_keep_histories;
pub use ranks::{write_core_ranks, write_ranks};
pub use status::{FileRole, Status, Unbuilt};
pub use text::write_result;
