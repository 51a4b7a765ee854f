//! Lets everything that can fail in commands of `editlens` do so once, and compares what stands afterwards with what
//! docs/FORMATS.md says.
//!
//! Words: the files, which lie in the folder where the program runs. The program fails where something differs.
#![tactic(auto)]

use case_fault_files::{StorePrograms, begins_with, run_files};
use case_files::Commands;
use editlens_main::editlens;
use lens_io::{MemDisk, MemSink, MemSource};
use std::alloc::Global;

fn main(rt: HostRuntime) -> anyhow::Result<()> {
    run_files::<Editlens>(&rt)
}

// The program `editlens`.
struct Editlens;

impl Commands for Editlens {
    fn run(
        alloc: Global,
        words: &[String],
        source: &mut MemSource,
        sink: &mut MemSink,
        disk: &mut MemDisk,
    ) -> u8 {
        editlens(alloc, words, source, sink, disk).code()
    }
}

impl StorePrograms for Editlens {
    fn is_change(payload: &[u8]) -> bool {
        begins_with(payload, b"{\"entry\":") || begins_with(payload, b"{\"group\":")
    }

    fn is_state(lines: &[u8]) -> bool {
        begins_with(lines, b"left ")
    }
}
