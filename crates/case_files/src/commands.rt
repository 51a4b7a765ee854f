//! Files of whole commands, for the programs that run them over devices in memory.

use crate::tally::run_file;
use anyhow::{Context, Result, bail};
use lens_io::{MemDisk, MemSink, MemSource};
use std::alloc::Global;
use std::io::{self, Write};
use std::{env, fs};

/// A program that runs commands.
pub trait Commands {
    /// Runs the command that these words name, the program's name first. Returns its exit code.
    fn run(
        alloc: Global,
        words: &[String],
        source: &mut MemSource,
        sink: &mut MemSink,
        disk: &mut MemDisk,
    ) -> u8;
}

/// Runs the commands of the files that the words of the program name, which lie in the folder where it runs. Each file
/// gives one line, as `commands: 90 cases, 0 differ`. Above it is what was wanted and what came for the first steps
/// that differ. It is refused if a case differs, and if a file is not readable or has no case.
pub fn run_files<C: Commands>(rt: &HostRuntime) -> Result<()> {
    let alloc = rt.alloc();
    let words: Vec<String> = env::args(rt)?.collect(alloc)?;
    let mut all_agree = true;
    for path in words.iter().skip(1) {
        let path = path.as_str();
        let bytes = fs::read(rt, path)?;
        let tally = run_file::<C>(alloc, &bytes).context("a file of cases")?;
        io::writer(rt).write_all(tally.differences())?;
        let name = path.strip_suffix(".cases").unwrap_or(path);
        let line = tally.line(alloc, name)?;
        println!(rt; "{line}")?;
        all_agree = all_agree && tally.is_passed();
    }
    if !all_agree {
        bail!("not every case agrees");
    }
    Ok(())
}
