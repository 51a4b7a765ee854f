//! A program that keeps a store, and its files of commands.

use crate::tally::run_file;
use anyhow::{Context, Result, bail};
use case_files::Commands;
use std::io::{self, Write};
use std::{env, fs};

/// A program that keeps a store. It opens its store by `verify` and by `show`.
pub trait StorePrograms: Commands {
    /// Whether a payload is that of a change, which `verify` counts.
    fn is_change(payload: &[u8]) -> bool;

    /// Whether these lines are those that `show` writes of a store that it opens.
    fn is_state(lines: &[u8]) -> bool;
}

/// Tries all that can fail in the commands of the files that the words of the program name, which lie in the folder
/// where it runs. Each file gives one line, with how much was tried and how much differs. Above it are the first
/// differences. It is refused if anything differs, and if a file is not readable or has no step.
pub fn run_files<C: StorePrograms>(rt: &HostRuntime) -> Result<()> {
    let alloc = rt.alloc();
    let words: Vec<String> = env::args(rt)?.collect(alloc)?;
    let mut all_agree = true;
    for path in words.iter().skip(1) {
        let path = path.as_str();
        let bytes = fs::read(rt, path)?;
        let tally = run_file::<C>(alloc, &bytes).context("a file of cases")?;
        io::writer(rt).write_all(tally.differences())?;
        let name = path.strip_suffix(".cases").unwrap_or(path);
        let line = tally.line(alloc, name)?;
        println!(rt; "{line}")?;
        all_agree = all_agree && tally.is_passed();
    }
    if !all_agree {
        bail!("not everything agrees");
    }
    Ok(())
}
