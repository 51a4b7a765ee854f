//! Runs the cases of files of JSON lines through the calls of the libraries, and compares what came with what is
//! wanted.
//!
//! Words: the files, which lie in the folder where the program runs. A line of a file is one case: an object with the
//! call, its arguments and its answer. reference/CASES.md has the form of each call. Each file gives one line, as
//! `plans: 153 cases, 0 differ`. Above it is what was wanted and what came for each case that differs. The program
//! fails if a case differs, if a line is not a case, and if a file is not readable or has no line.
//!
//! Then the lines, words and documents of all rows are read by their tokens and as trees, as they are and with damage.
//! The last lines say how many there were, and how they were read. The program fails if the two ways differ.
//!
//! Values of many variants, such as types and programs, are put in a `Box` or let go by `drop`. Each is then dropped by
//! one call. At the end of a block they would be dropped variant by variant, which takes long to prove.
#![tactic(auto)]

mod answers;
mod arguments;
mod bytes;
mod calls;
mod case;
mod checks;
mod documents;
mod lines;
mod programs;
mod shape_trees;
mod shapes;
mod tokens;
mod type_trees;
mod ways;
mod word_trees;
mod words;

use crate::calls::outcome;
use crate::case::Case;
use crate::ways::RowWays;
use anyhow::Result;
use both_ways::read_rows;
use case_files::{CaseLine, compare_files};
use serde_json::Value;
use std::alloc::Global;

fn main(rt: HostRuntime) -> Result<()> {
    compare_files::<Layers, HostRuntime>(&rt)?;
    read_rows(&rt, RowWays::new(rt.alloc()))
}

// The calls of the libraries.
struct Layers;

impl CaseLine for Layers {
    fn difference(alloc: Global, line: &str) -> Result<Option<String>> {
        let row = Value::from_str(alloc, line)?;
        let difference = row_difference(alloc, &row);
        drop(row);
        difference
    }
}

fn row_difference(alloc: Global, row: &Value) -> Result<Option<String>> {
    let case = Case::from_row(row)?;
    let wanted = case.wanted(alloc)?;
    let difference = case_difference(alloc, &case, &wanted);
    drop(wanted);
    difference
}

fn case_difference(alloc: Global, case: &Case<'_>, wanted: &Value) -> Result<Option<String>> {
    let came = outcome(alloc, case)?;
    let difference = difference_of(alloc, wanted, &came);
    drop(came);
    difference
}

fn difference_of(alloc: Global, wanted: &Value, came: &Value) -> Result<Option<String>> {
    if came == wanted {
        return Ok(None);
    }
    Ok(Some(both(alloc, wanted, came)?))
}

fn both(alloc: Global, wanted: &Value, came: &Value) -> Result<String> {
    let wanted = wanted.to_string(alloc)?;
    let came = came.to_string(alloc)?;
    Ok(format!(in alloc; "wanted {wanted}, came {came}")?)
}
