//! What the programs answer.

use mls_ckpt::CkptWhy;
use mls_study::StudyFault;
use mls_tape::{SchedWhy, TapeWhy};
use std::fmt;
use thiserror::Error;

/// What a file is to a command.
#[derive(Clone, Copy, Debug, PartialEq, Eq)]
pub enum FileRole {
    Study,
    Tape,
    Schedule,
    Events,
    Checkpoint,
}

/// A part of the program that is not built yet.
#[derive(Clone, Copy, Debug, PartialEq, Eq)]
pub enum Unbuilt {
    /// A command.
    Command,
}

/// What a command answers. The text of a status is what the program prints on standard error after its name.
#[derive(Debug, Drop, Error)]
pub enum Status {
    /// The command was carried out and all its output was written.
    #[error("done")]
    Done,
    /// The words are no command.
    #[error("usage: melissa fold STUDY TAPE [SCHEDULE] | design STUDY | trial STUDY NUMBER [TAPE SCHEDULE] | watch STUDY EVENTS | bins STUDY TAPE [SCHEDULE] | export STUDY PREFIX | resume STUDY OLD PREFIX TAPE [SCHEDULE]")]
    Usage,
    /// The study's bytes are refused.
    #[error("{0}")]
    Study(StudyFault),
    /// The tape's bytes are refused at a place.
    #[error("tape: {} at {at}", TapeText(*.why))]
    Tape {
        at: u64,
        why: TapeWhy,
    },
    /// The schedule's bytes are refused at a line, counted from 1.
    #[error("schedule: {} in line {line}", ScheduleText(*.why))]
    Schedule {
        line: u32,
        why: SchedWhy,
    },
    /// A file could not be read.
    #[error("cannot read")]
    ReadFault,
    /// Output could not be written.
    #[error("cannot write")]
    WriteFault,
    /// A call of this rank's checkpoint store failed.
    #[error("checkpoint store of rank {rank} failed")]
    KeeperFault {
        rank: u32,
    },
    /// This rank's checkpoint store gave nothing, or bytes that are no checkpoint, the first wrong one at a place.
    #[error("checkpoint of rank {rank}: {} at {at}", CheckpointText(*.why))]
    CheckpointBad {
        rank: u32,
        at: u64,
        why: CkptWhy,
    },
    /// Memory ran out.
    #[error("out of memory")]
    Memory,
    /// The command is not built yet.
    #[error("not built yet")]
    NotBuilt {
        part: Unbuilt,
    },
    /// No connection could be waited for or made.
    #[error("cannot listen or connect")]
    DoorFault,
    /// A file has more bytes than it may have.
    #[error("file too long: {}", RoleText(*.file))]
    TooLong {
        file: FileRole,
    },
    /// The events file is refused at a line, counted from 1.
    #[error("events: line {line}")]
    Events {
        line: u32,
    },
    /// A read or write of a connection failed.
    #[error("connection failed")]
    LinkFault,
    /// The server refused a connection of a group.
    #[error("refused by server: reason {reason} value {value}")]
    Refused {
        reason: u8,
        value: u32,
    },
    /// What the server sent first on a connection of a group is no answer.
    #[error("unexpected answer")]
    Peer,
    /// The study has no such group.
    #[error("no such group: {group}")]
    NoGroup {
        group: u32,
    },
    /// The tape of a trial would be too large.
    #[error("trial too large")]
    TooLarge,
    /// What runs polled connections failed.
    #[error("runner failed")]
    RunnerFault,
    /// The marks of two ranks differ first at this plane and group, which rank 0 has or hasn't.
    #[error("marks differ: rank 0 and rank {other} at plane {plane} group {group}")]
    MarksDiffer {
        other: u32,
        plane: u32,
        group: u32,
        first_has: bool,
    },
    /// The study would not be valid with so many ranks.
    #[error("cannot resume from {ranks} ranks")]
    OldRanks {
        ranks: u32,
    },
}

impl Status {
    ghost use Rattle.std.specs.Prelude.{◌≡◌};
    ghost use Rattle.mls_result.specs.Statuses.{number_of};

    /// The exit status of a program.
    pub fn number(&self) -> u8
        ensures { result ≡ number_of self.now }
    {
        match self {
            Status::Done => 0,
            Status::Usage => 1,
            Status::Study(_) => 2,
            Status::Tape { .. } => 3,
            Status::Schedule { .. } => 4,
            Status::ReadFault => 5,
            Status::WriteFault => 6,
            Status::KeeperFault { .. } => 7,
            Status::CheckpointBad { .. } => 8,
            Status::Memory => 9,
            Status::NotBuilt { .. } => 10,
            Status::DoorFault => 11,
            Status::TooLong { .. } => 12,
            Status::Events { .. } => 13,
            Status::LinkFault => 14,
            Status::Refused { .. } => 15,
            Status::Peer => 16,
            Status::NoGroup { .. } => 17,
            Status::TooLarge => 18,
            Status::RunnerFault => 19,
            Status::MarksDiffer { .. } => 20,
            Status::OldRanks { .. } => 21,
        }
    }
}

/// The reason of a refused tape, to be printed.
#[derive(Clone, Copy, Debug)]
struct TapeText(TapeWhy);

impl fmt::Display for TapeText {
    fn fmt<W: fmt::Write>(&self, f: &mut fmt::Formatter<W>) -> fmt::Result {
        f.write_str(match self.0 {
            TapeWhy::Cut => "cut",
            TapeWhy::Magic => "magic",
            TapeWhy::Version => "version",
            TapeWhy::Samples => "samples",
            TapeWhy::TooManyLanes => "too-many-lanes",
            TapeWhy::LaneKind => "lane-kind",
            TapeWhy::LaneRank => "lane-rank",
            TapeWhy::Trailing => "trailing",
            TapeWhy::TooManyEvents => "too-many-events",
        })
    }
}

/// The reason of a refused schedule, to be printed.
#[derive(Clone, Copy, Debug)]
struct ScheduleText(SchedWhy);

impl fmt::Display for ScheduleText {
    fn fmt<W: fmt::Write>(&self, f: &mut fmt::Formatter<W>) -> fmt::Result {
        f.write_str(match self.0 {
            SchedWhy::Form => "form",
            SchedWhy::Rank => "rank",
            SchedWhy::Lane => "lane",
            SchedWhy::Count => "count",
        })
    }
}

/// The reason of a refused checkpoint, to be printed.
#[derive(Clone, Copy, Debug)]
struct CheckpointText(CkptWhy);

impl fmt::Display for CheckpointText {
    fn fmt<W: fmt::Write>(&self, f: &mut fmt::Formatter<W>) -> fmt::Result {
        f.write_str(match self.0 {
            CkptWhy::Absent => "absent",
            CkptWhy::Magic => "magic",
            CkptWhy::Version => "version",
            CkptWhy::Shape => "shape",
            CkptWhy::Short => "short",
            CkptWhy::Range => "range",
            CkptWhy::Trailing => "trailing",
        })
    }
}

/// What a file is, to be printed.
#[derive(Clone, Copy, Debug)]
struct RoleText(FileRole);

impl fmt::Display for RoleText {
    fn fmt<W: fmt::Write>(&self, f: &mut fmt::Formatter<W>) -> fmt::Result {
        f.write_str(match self.0 {
            FileRole::Study => "study",
            FileRole::Tape => "tape",
            FileRole::Schedule => "schedule",
            FileRole::Events => "events",
            FileRole::Checkpoint => "checkpoint",
        })
    }
}
