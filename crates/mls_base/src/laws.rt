//! The laws of blocks, parts and overlaps.

ghost use Rattle.mls_base.specs.Partitions.{BlocksPartition, PartsPartition, OverlapsPartition, RankHolds, ClientHolds, LoneRank, LoneClient};

/// The blocks of the ranks partition the cells.
pub fn blocks_partition()
    ensures { BlocksPartition }
{}

/// The parts of the clients partition the cells.
pub fn parts_partition()
    ensures { PartsPartition }
{}

/// The overlaps of a rank partition its block.
pub fn overlaps_partition()
    ensures { OverlapsPartition }
{}

/// The rank of a cell is the one whose block holds it.
pub fn rank_holds()
    ensures { RankHolds }
{}

/// The client of a cell is the one whose part holds it.
pub fn client_holds()
    ensures { ClientHolds }
{}

/// A lone rank has the whole mesh, and a lone client sends the whole block of each rank.
pub fn lone_ones()
    ensures rank { LoneRank }
    ensures client { LoneClient }
{}
