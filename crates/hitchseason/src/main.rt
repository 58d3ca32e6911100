//! The server's program: it does the command of its words over the system, and ends with its status.
#![tactic(auto)]

use std::process::ExitCode;
use system_run::run_process;

fn main(rt: HostRuntime) -> ExitCode {
    run_process(&rt, &rt)
}
