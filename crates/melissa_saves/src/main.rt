//! The program `melissa`, run on a tape with a save and a crash: the checkpoint is written into the store's files and read
//! back from them.
#![tactic(auto)]

use std::process::ExitCode;

fn main(rt: HostRuntime) -> ExitCode {
    mls_cli::run_program(&rt)
}
