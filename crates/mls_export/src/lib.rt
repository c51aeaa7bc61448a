//! The files that hold the checkpoints of the ranks: saving what the keepers hold, and reading it again.
#![tactic(auto)]

pub mod exporting;
pub mod faults;
pub mod naming;

pub use exporting::export;
pub use faults::ExportFault;
pub use naming::file_name;
