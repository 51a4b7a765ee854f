//! Files of JSON lines, each line of which is a case, for the programs that compare them.

use anyhow::{Context, Result, bail};
use std::alloc::Global;
use std::rt::{Env, Files};
use std::{env, fs};

/// What compares the case of a line.
pub trait CaseLine {
    /// Returns what is wanted of the case of this line and what came, if they differ. It is refused if the line is not
    /// a case.
    fn difference(alloc: Global, line: &str) -> Result<Option<String>>;
}

/// Compares the cases of the files that the words of the program name, which lie in the folder where it runs. Each file
/// gives one line, as `plans: 153 cases, 0 differ`. Above it is a line for each case that differs. It is refused if a
/// case differs, if a line is not a case, and if a file is not readable or has no line.
pub fn compare_files<C: CaseLine, R: Env + Files + AllocGlobal + Print>(rt: &R) -> Result<()> {
    let words: Vec<String> = env::args(rt)?.collect(rt.alloc())?;
    let mut differ = 0u64;
    for file in words.iter().skip(1) {
        differ = differ.saturating_add(compare_file::<C, R>(rt, file.as_str())?);
    }
    if differ > 0 {
        bail!("{differ} cases differ");
    }
    Ok(())
}

// Compares the cases of a file, and prints how many there are and how many differ. Returns how many differ.
fn compare_file<C: CaseLine, R: Files + AllocGlobal + Print>(rt: &R, file: &str) -> Result<u64> {
    let text = fs::read_to_string(rt, file).context("a file of cases is not read")?;
    let (cases, differ) = compare_lines::<C, R>(rt, file, text.as_str())?;
    if cases == 0 {
        bail!("{file} has no case");
    }
    let name = file.strip_suffix(".jsonl").unwrap_or(file);
    println!(rt; "{name}: {cases} cases, {differ} differ")?;
    Ok(differ)
}

// Compares the cases of the lines of a file. Returns how many there are and how many differ.
fn compare_lines<C: CaseLine, R: AllocGlobal + Print>(
    rt: &R,
    file: &str,
    text: &str,
) -> Result<(u64, u64)> {
    let mut cases = 0u64;
    let mut differ = 0u64;
    for line in text.lines() {
        cases = cases.saturating_add(1);
        if is_different::<C, R>(rt, file, cases, line)? {
            differ = differ.saturating_add(1);
        }
    }
    Ok((cases, differ))
}

// Compares the case of a line, and prints how it differs if it does. The number of the line is for what is printed.
fn is_different<C: CaseLine, R: AllocGlobal + Print>(
    rt: &R,
    file: &str,
    number: u64,
    line: &str,
) -> Result<bool> {
    match C::difference(rt.alloc(), line) {
        Ok(None) => Ok(false),
        Ok(Some(difference)) => {
            println!(rt; "{file} {number}: {difference}")?;
            Ok(true)
        }
        Err(error) => bail!("{file} {number}: {error}"),
    }
}
