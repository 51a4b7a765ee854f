//! Lets everything that can fail in commands of `edithub` do so once, and compares what stands afterwards with what
//! docs/FORMATS.md says.
//!
//! Words: the files, which lie in the folder where the program runs. The program fails where something differs.
#![tactic(auto)]

use case_fault_files::{StorePrograms, begins_with, run_files};
use case_files::Commands;
use edithub_main::edithub;
use lens_io::{MemDisk, MemSink, MemSource};
use std::alloc::Global;

fn main(rt: HostRuntime) -> anyhow::Result<()> {
    run_files::<Edithub>(&rt)
}

// The program `edithub`.
struct Edithub;

impl Commands for Edithub {
    fn run(
        alloc: Global,
        words: &[String],
        source: &mut MemSource,
        sink: &mut MemSink,
        disk: &mut MemDisk,
    ) -> u8 {
        edithub(alloc, words, source, sink, disk).code()
    }
}

impl StorePrograms for Edithub {
    fn is_change(payload: &[u8]) -> bool {
        begins_with(payload, b"{\"at\":") || begins_with(payload, b"{\"group\":")
    }

    fn is_state(lines: &[u8]) -> bool {
        begins_with(lines, b"hub ")
    }
}
