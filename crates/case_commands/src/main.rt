//! Runs commands from files of cases, and compares what they write with what the files say.
//!
//! Words: the files, which lie in the folder where the program runs. Each gives one line, as `commands: 90 cases, 0
//! differ`. Above it is what was wanted and what came for the first steps that differ. reference/CASES.md has the form
//! of a file. The program fails where a case differs, and where a file is not readable or has no case.
#![tactic(auto)]

use case_files::{Commands, run_files};
use editlens_main::editlens;
use lens_io::{MemDisk, MemSink, MemSource};
use std::alloc::Global;

fn main(rt: HostRuntime) -> anyhow::Result<()> {
    run_files::<Editlens>(&rt)
}

// The program `editlens`.
struct Editlens;

impl Commands for Editlens {
    fn run(
        alloc: Global,
        words: &[String],
        source: &mut MemSource,
        sink: &mut MemSink,
        disk: &mut MemDisk,
    ) -> u8 {
        editlens(alloc, words, source, sink, disk).code()
    }
}
