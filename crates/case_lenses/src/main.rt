//! Runs the cases of files of JSON lines through two lenses of the same form, and compares them: the form itself, of
//! lens_run, and its table of nodes, of lens_flat.
//!
//! Words: the files, which are in the folder where the program runs. A line of a file is one case: an object with a
//! lens program and the entries of a journal. reference/CASES.md has the form. For each entry the answers are compared,
//! and the documents and complements after it. Each file gives one line, as `lenses: 30 cases, 0 differ`. Above it is a
//! line for each case that differs. The program fails if a case differs, if a line is not a case, and if a file cannot
//! be read or has no line.
#![tactic(auto)]

mod case;
mod comparison;
mod complements;
mod tags;

use crate::comparison::difference;
use anyhow::Result;
use case_files::{CaseLine, compare_files};
use std::alloc::Global;

fn main(rt: HostRuntime) -> Result<()> {
    compare_files::<Lenses, HostRuntime>(&rt)
}

// Two lenses of the same form.
struct Lenses;

impl CaseLine for Lenses {
    fn difference(alloc: Global, line: &str) -> Result<Option<String>> {
        difference(alloc, line)
    }
}
