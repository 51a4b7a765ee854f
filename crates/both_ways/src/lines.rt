//! Lines of a journal, read in both ways.

use crate::counts::Way;
use crate::ways::{Pair, Texts};
use anyhow::{Result, bail};
use edit_journal::{EntryFault, Line, append_change, read_entry};
use edit_module::Change;
use edit_tokens::{change_of_tokens, read_line};
use json::Scratch;
use std::alloc::Global;

/// Lines of a journal.
#[derive(Clone, Copy)]
pub struct Lines;

impl Texts for Lines {
    fn way(&self, alloc: Global, both: &Pair<'_>, scratch: &mut Scratch) -> Result<Option<Way>> {
        let as_tree = outcome_as_tree(alloc, both.as_tree)?;
        let (by_tokens, either_way) = outcome_by_tokens(alloc, both.by_tokens, scratch)?;
        Ok(line_way(by_tokens, &either_way, &as_tree))
    }
}

// What came of a line as a tree.
fn outcome_as_tree(alloc: Global, text: &[u8]) -> Result<Outcome> {
    let line = Line::from_slice(alloc, text)?;
    outcome_of(alloc, read_entry(alloc, &line))
}

// Whether a line is read by its tokens, and what came of it by its tokens, or else as a tree.
fn outcome_by_tokens(alloc: Global, text: &[u8], scratch: &mut Scratch) -> Result<(bool, Outcome)> {
    let line = Line::from_slice(alloc, text)?;
    let by_tokens = is_read_by_tokens(alloc, &line, scratch);
    Ok((
        by_tokens,
        outcome_of(alloc, read_line(alloc, &line, scratch))?,
    ))
}

// How a line was read. `None` if something else came of it as a tree.
fn line_way(by_tokens: bool, either_way: &Outcome, as_tree: &Outcome) -> Option<Way> {
    match (by_tokens, as_tree.is_read) {
        _ if either_way.text != as_tree.text => None,
        (true, true) => Some(Way::Tokens),
        (true, false) => None,
        (false, true) => Some(Way::Tree),
        (false, false) => Some(Way::Refused),
    }
}

// What came of reading a line.
#[derive(Drop)]
struct Outcome {
    is_read: bool,
    // The text of the change, or the name of the fault.
    text: Vec<u8>,
}

fn outcome_of(alloc: Global, read: Result<Change, EntryFault>) -> Result<Outcome> {
    match read {
        Ok(change) => outcome_of_change(alloc, change),
        Err(EntryFault::NoMemory) => bail!("out of memory"),
        Err(fault) => outcome_of_fault(alloc, &fault),
    }
}

fn outcome_of_change(alloc: Global, change: Change) -> Result<Outcome> {
    let text = append_change(Vec::new(alloc), &change);
    drop(change);
    Ok(Outcome {
        is_read: true,
        text: text?,
    })
}

fn outcome_of_fault(alloc: Global, fault: &EntryFault) -> Result<Outcome> {
    let name = format!(in alloc; "{fault:?}")?;
    Ok(Outcome {
        is_read: false,
        text: name.into_bytes(),
    })
}

fn is_read_by_tokens(alloc: Global, line: &Line, scratch: &mut Scratch) -> bool {
    match line {
        Line::Text(bytes) => change_of_tokens(alloc, bytes.as_slice(), scratch).is_some(),
        Line::TooLong => false,
    }
}
