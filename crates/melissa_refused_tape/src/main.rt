//! The program `melissa`, run on a tape that is cut.
#![tactic(auto)]

use std::process::ExitCode;

fn main(rt: HostRuntime) -> ExitCode {
    mls_cli::run_program(&rt)
}
