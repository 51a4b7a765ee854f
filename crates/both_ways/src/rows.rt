//! Files of rows whose texts are read in both ways.

use anyhow::{Result, bail};
use std::alloc::Global;
use std::rt::{Env, Files};
use std::{env, fs};

/// What reads the texts of rows in both ways.
pub trait Rows {
    /// Reads the texts of a row. It is refused if a text is read differently in the two ways, and if the row has
    /// another form.
    fn take(&mut self, alloc: Global, row: &str) -> Result<()>;

    /// Lines that say how many texts there were, and how they were read.
    fn report(&self, alloc: Global) -> Result<String>;
}

/// Reads the rows of the files that the words of the program name, one a line, and prints how they were read. The files
/// are in the folder where the program runs. It is refused if a row is, and if a file is not readable.
pub fn read_rows<T: Rows + Drop, R: Env + Files + AllocGlobal + Print>(
    rt: &R,
    mut rows: T,
) -> Result<()> {
    let words: Vec<String> = env::args(rt)?.collect(rt.alloc())?;
    for file in words.iter().skip(1) {
        take_file(rt, &mut rows, file.as_str())?;
    }
    print_report(rt, &rows)
}

fn print_report<T: Rows, R: AllocGlobal + Print>(rt: &R, rows: &T) -> Result<()> {
    let report = rows.report(rt.alloc())?;
    println!(rt; "{report}")?;
    Ok(())
}

fn take_file<T: Rows, R: Files + AllocGlobal>(rt: &R, rows: &mut T, file: &str) -> Result<()> {
    let text = fs::read_to_string(rt, file)?;
    take_lines(rt.alloc(), rows, file, text.as_str())
}

fn take_lines<T: Rows>(alloc: Global, rows: &mut T, file: &str, text: &str) -> Result<()> {
    let mut number = 0u64;
    for row in text.lines() {
        number = number.saturating_add(1);
        if let Err(error) = rows.take(alloc, row) {
            bail!("{file} {number}: {error}");
        }
    }
    Ok(())
}
