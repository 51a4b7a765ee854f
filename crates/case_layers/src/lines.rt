//! Calls on lines of a journal.

use crate::answers::{fault, ok, ok_bool};
use crate::bytes::bytes;
use crate::case::Case;
use anyhow::{Result, bail};
use edit_journal::{EntryFault, Line, append_change, is_blank, read_entry};
use serde_json::Value;
use std::alloc::Global;

/// Runs `read_entry`: the tree of the change that was read, or the fault.
pub fn run_read_entry(alloc: Global, case: &Case<'_>) -> Result<Value> {
    let line = line_of(alloc, case)?;
    change_or_fault(alloc, &line)
}

fn change_or_fault(alloc: Global, line: &Line) -> Result<Value> {
    match read_entry(alloc, line) {
        Ok(change) => {
            let text = append_change(Vec::new(alloc), &change);
            drop(change);
            ok(alloc, Value::from_slice(alloc, text?.as_slice())?)
        }
        Err(fault) => entry_fault(alloc, &fault),
    }
}

fn entry_fault(alloc: Global, refusal: &EntryFault) -> Result<Value> {
    match refusal {
        EntryFault::LineTooLong => fault(alloc, "line-too-long"),
        EntryFault::NotJson => fault(alloc, "not-json"),
        EntryFault::NotAnEntry => fault(alloc, "not-an-entry"),
        EntryFault::NotAnEdit => fault(alloc, "not-an-edit"),
        EntryFault::NoMemory => bail!("out of memory"),
    }
}

/// Runs `is_blank`.
pub fn run_is_blank(alloc: Global, case: &Case<'_>) -> Result<Value> {
    let line = line_of(alloc, case)?;
    ok_bool(alloc, is_blank(&line))
}

/// Runs `is_too_long`: whether the line is longer than a line may be.
pub fn run_is_too_long(alloc: Global, case: &Case<'_>) -> Result<Value> {
    let line = line_of(alloc, case)?;
    ok_bool(alloc, matches!(&line, Line::TooLong))
}

fn line_of(alloc: Global, case: &Case<'_>) -> Result<Line> {
    let bytes = bytes(alloc, case)?;
    Ok(Line::from_slice(alloc, bytes.as_slice())?)
}
