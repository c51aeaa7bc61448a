//! What a command answers after its text was written, or its fold was carried out.

ghost use Rattle.std.specs.Prelude.{◌≡◌};
ghost use Rattle.mls_cli.specs.Answers.{out_status};
ghost use Rattle.mls_cli.specs.Fold.{fold_status};

use mls_launch::OutFault;
use mls_result::{FoldFault, Status};

/// What a command answers after its text was made in memory and written.
pub(crate) fn out_status(answer: Result<(), OutFault>) -> Status
    ensures { result ≡ out_status answer }
{
    match answer {
        Ok(()) => Status::Done,
        Err(OutFault::WriteFault) => Status::WriteFault,
        Err(OutFault::Memory) => Status::Memory,
    }
}

/// What a command answers after a fold.
pub(crate) fn fold_status(answer: Result<(), FoldFault>) -> Status
    ensures { result ≡ fold_status answer }
{
    match answer {
        Ok(()) => Status::Done,
        Err(FoldFault::KeeperFault { rank }) => Status::KeeperFault { rank },
        Err(FoldFault::CheckpointBad { rank, at, why }) => Status::CheckpointBad { rank, at, why },
        Err(FoldFault::WriteFault) => Status::WriteFault,
        Err(FoldFault::Memory) => Status::Memory,
    }
}
