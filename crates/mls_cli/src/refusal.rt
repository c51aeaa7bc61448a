//! Why a command has no inputs.

ghost use Rattle.std.specs.Prelude.{◌≡◌};
ghost use Rattle.mls_cli.specs.Refusals.{study_refusal};

use mls_ckpt::CkptWhy;
use mls_launch::EventFault;
use mls_result::{FileRole, Status};
use mls_study::StudyFault;
use mls_tape::{SchedFault, SchedWhy, TapeFault, TapeWhy};

/// Why a command has no inputs.
#[derive(Debug, Drop)]
pub(crate) enum Refusal {
    /// A file could not be read.
    ReadFault,
    /// Memory ran out.
    Memory,
    /// The study's bytes are refused.
    Study(StudyFault),
    /// The tape's bytes are refused at a place.
    Tape {
        at: u64,
        why: TapeWhy,
    },
    /// The schedule's bytes are refused at a line.
    Schedule {
        line: u32,
        why: SchedWhy,
    },
    /// The events file is refused at a line.
    Events {
        line: u32,
    },
    /// A file has more bytes than it may have.
    TooLong {
        file: FileRole,
    },
    /// The tape of a trial would pass its limit of bytes or of events.
    TooLarge,
    /// The study can't have this old number of ranks.
    OldRanks {
        ranks: u32,
    },
    /// The file of an old rank is refused at a place.
    CheckpointBad {
        rank: u32,
        at: u64,
        why: CkptWhy,
    },
    /// The marks of old rank `other` differ from those of rank 0. `first_has` says whether rank 0 has the mark.
    MarksDiffer {
        other: u32,
        plane: u32,
        group: u32,
        first_has: bool,
    },
}

/// How a command is refused whose study has this fault.
pub(crate) fn study_refusal(fault: StudyFault) -> Refusal
    ensures { result ≡ study_refusal fault }
{
    match fault {
        StudyFault::Memory => return Refusal::Memory,
        fault => return Refusal::Study(fault),
    }
}

impl From<Refusal> for Status {
    ghost use Rattle.std.specs.Prelude.{◌≡◌};
    ghost use Rattle.mls_cli.specs.Refusals.{status_of};

    ghost from_gives = { λ refusal status. status ≡ status_of refusal };

    fn from(refusal: Refusal) -> Status {
        match refusal {
            Refusal::ReadFault => Status::ReadFault,
            Refusal::Memory => Status::Memory,
            Refusal::Study(fault) => Status::Study(fault),
            Refusal::Tape { at, why } => Status::Tape { at, why },
            Refusal::Schedule { line, why } => Status::Schedule { line, why },
            Refusal::Events { line } => Status::Events { line },
            Refusal::TooLong { file } => Status::TooLong { file },
            Refusal::TooLarge => Status::TooLarge,
            Refusal::OldRanks { ranks } => Status::OldRanks { ranks },
            Refusal::CheckpointBad { rank, at, why } => Status::CheckpointBad { rank, at, why },
            Refusal::MarksDiffer {
                other,
                plane,
                group,
                first_has,
            } => Status::MarksDiffer {
                other,
                plane,
                group,
                first_has,
            },
        }
    }
}
