//! Runs commands of `edithub` from files of cases, and compares what they write with what the files say.
//!
//! Words: the files, which lie in the folder where the program runs. Each gives one line, as `kept_hubs: 90 cases, 0
//! differ`. Above it is what was wanted and what came for the first steps that differ. reference/CASES.md has the form
//! of a file. The program fails where a case differs, and where a file is not readable or has no case.
#![tactic(auto)]

use case_files::{Commands, run_files};
use edithub_main::edithub;
use lens_io::{MemDisk, MemSink, MemSource};
use std::alloc::Global;

fn main(rt: HostRuntime) -> anyhow::Result<()> {
    run_files::<Edithub>(&rt)
}

// The program `edithub`.
struct Edithub;

impl Commands for Edithub {
    fn run(
        alloc: Global,
        words: &[String],
        source: &mut MemSource,
        sink: &mut MemSink,
        disk: &mut MemDisk,
    ) -> u8 {
        edithub(alloc, words, source, sink, disk).code()
    }
}
