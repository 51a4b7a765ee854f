//! The program: the top call over standard input and standard output. It ends with the status as its exit code, and
//! writes nothing to standard error.
#![tactic(auto)]

use edithub_main::run_program;
use std::process::ExitCode;

fn main(rt: HostRuntime) -> ExitCode {
    ExitCode::from(run_program(&rt).code())
}
