//! The program `melissa`: folds a recorded tape, or prints a launcher's decisions.
#![tactic(auto)]

use std::process::ExitCode;

fn main(rt: HostRuntime) -> ExitCode {
    mls_cli::run_program(&rt)
}
