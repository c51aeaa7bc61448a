//! Why the states of a run are not exported.

/// Why not all states were exported. The files of the ranks below stay saved.
#[derive(Clone, Copy, Debug, PartialEq, Eq)]
pub enum ExportFault {
    /// The get of this rank's keeper failed.
    KeeperFault { rank: u32 },
    /// This rank's keeper holds nothing.
    Absent { rank: u32 },
    /// A save failed.
    WriteFault,
    /// Memory ran out.
    Memory,
}
