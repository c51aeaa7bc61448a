//! A checkpoint store over two areas of a disk that survives a crash at any moment.
#![tactic(auto)]

pub mod disk;
mod disk_calls;
pub mod files;
mod heads;
pub mod keeper;
pub mod laws;
pub mod memory;

pub use disk::Disk;
pub use files::FileDisk;
pub use keeper::SlotKeeper;
pub use memory::MemDisk;
