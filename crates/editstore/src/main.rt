//! The program: the top call over standard output. It ends with the status as its exit code, and writes nothing to
//! standard error.
#![tactic(auto)]

use editstore_main::run_program;
use std::process::ExitCode;

fn main(rt: HostRuntime) -> ExitCode {
    ExitCode::from(run_program(&rt).code())
}
