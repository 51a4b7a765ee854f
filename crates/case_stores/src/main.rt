//! Reopens the stores of files of JSON lines, and compares what they stand for with what is wanted.
//!
//! Words: the files, which are in the folder where the program runs. A line of a file is one case: an object with the
//! payloads of a store and the answer that is wanted. reference/CASES.md has the form. Each file gives one line, as
//! `faults: 30 cases, 0 differ`. Above it is a line for each case that differs. The program fails if a case differs, if
//! a line is not a case, and if a file cannot be read or has no line.
//!
//! Then the payloads of all rows are read by their tokens and as trees, as they are and with damage. The last lines say
//! how many there were, and how they were read. The program fails if the two ways differ.
#![tactic(auto)]

mod case;
mod reopened;
mod ways;

use crate::case::Case;
use crate::reopened::answer;
use crate::ways::RowWays;
use anyhow::Result;
use both_ways::read_rows;
use case_files::{CaseLine, compare_files};
use serde_json::Value;
use std::alloc::Global;

fn main(rt: HostRuntime) -> Result<()> {
    compare_files::<Stores, HostRuntime>(&rt)?;
    read_rows(&rt, RowWays::new(rt.alloc()))
}

// Stores that are reopened.
struct Stores;

impl CaseLine for Stores {
    fn difference(alloc: Global, line: &str) -> Result<Option<String>> {
        let row = Value::from_str(alloc, line)?;
        difference_of_row(alloc, &row)
    }
}

fn difference_of_row(alloc: Global, row: &Value) -> Result<Option<String>> {
    let case = Case::from_row(row)?;
    let wanted = case.wanted()?;
    let payloads = case.payloads(alloc)?;
    let came = answer(alloc, &payloads)?;
    if came.as_str() == wanted {
        return Ok(None);
    }
    Ok(Some(format!(in alloc; "wanted {wanted}, came {came}")?))
}
