//! What both programs take of the system: the words of the command line and the checkpoint stores.

ghost use Rattle.std.specs.Prelude.{◌≡◌, vec_len, IfOk};

use mls_result::Status;
use mls_slot::{FileDisk, SlotKeeper};
use std::alloc::{AllocError, Global};
use std::env;

/// The checkpoint store of each rank there may be, over the files `checkpoints/rank-R.0` and `checkpoints/rank-R.1`.
pub fn checkpoint_stores<'a>(
    rt: &'a HostRuntime,
    alloc: Global,
) -> Result<Vec<SlotKeeper<FileDisk<&'a HostRuntime>>>, AllocError>
    ensures { IfOk result (λ keepers. vec_len keepers ≡ 64) }
{
    let mut keepers = Vec::with_capacity(alloc, 64)?;
    for rank in 0..64_u32 {
        keepers.push(SlotKeeper::new(FileDisk::new(rt, rank)))?;
    }
    Ok(keepers)
}

/// The words after the program's name. Words that can't be read as text are `Usage`.
pub fn program_words(rt: &HostRuntime, alloc: Global) -> Result<Vec<String>, Status> {
    match env::args(rt) {
        Ok(args) => match args.skip(1).collect(alloc) {
            Ok(words) => Ok(words),
            Err(_) => Err(Status::Memory),
        },
        Err(_) => Err(Status::Usage),
    }
}
