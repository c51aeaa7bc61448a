//! The program `melissad`: runs a recorded tape on workers, or sends the pieces of a group to a server.
#![tactic(auto)]

use std::process::ExitCode;

fn main(rt: HostRuntime) -> ExitCode {
    mls_live::run_program(&rt, &rt)
}
