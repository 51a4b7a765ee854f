//! The steps of a file of cases: a line of JSON, then as many bytes as it says, then a line feed.

use crate::head::{Head, Lengths, read_head};
use anyhow::{Result, bail};
use std::alloc::Global;

/// One command of a case.
#[derive(Drop)]
pub struct Step {
    pub head: Head,
    pub input: Vec<u8>,
    /// What the command is to write.
    pub output: Vec<u8>,
    /// What the store has before the command, and what it is to have after it. A step that says nothing of its store
    /// has none, and the command is to make none.
    pub store_before: Vec<u8>,
    pub store_after: Vec<u8>,
}

/// Reads the first step, and returns it with the number of its bytes.
pub fn read_step(alloc: Global, bytes: &[u8]) -> Result<(Step, usize)> {
    let Some((line, body)) = first_line(bytes) else {
        bail!("a step has no line of JSON");
    };
    let head = read_head(alloc, line)?;
    let Some((input, behind)) = next_part(body, head.lengths.input) else {
        bail!("the input of a step is cut off");
    };
    let Some((output, behind)) = next_part(behind, head.lengths.output) else {
        bail!("the output of a step is cut off");
    };
    let Some((before, after, rest)) = next_stores(behind, head.lengths) else {
        bail!("a step is cut off, or does not end with a line feed");
    };
    let step = Step {
        head,
        input: input.to_vec(alloc)?,
        output: output.to_vec(alloc)?,
        store_before: before.to_vec(alloc)?,
        store_after: after.to_vec(alloc)?,
    };
    Ok((step, bytes.len().saturating_sub(rest.len())))
}

// The first line without its line feed, and what follows it.
fn first_line(bytes: &[u8]) -> Option<(&[u8], &[u8])> {
    let end = bytes.iter().position(|byte| *byte == b'\n')?;
    Some((&bytes[..end], &bytes[end + 1..]))
}

// The next part of this length, and what follows it.
fn next_part(bytes: &[u8], length: u64) -> Option<(&[u8], &[u8])> {
    if length > bytes.len() as u64 {
        return None;
    }
    Some(bytes.split_at(length as usize))
}

// The stores before and after, and what follows them and the line feed at the end of a step. A store that is not said
// to change stays as it was.
fn next_stores(bytes: &[u8], lengths: Lengths) -> Option<(&[u8], &[u8], &[u8])> {
    let (before, behind) = next_part(bytes, lengths.store_before.unwrap_or(0))?;
    let (after, behind) = match lengths.store_after {
        Some(length) => next_part(behind, length)?,
        None => (before, behind),
    };
    match behind {
        [b'\n', rest @ ..] => Some((before, after, rest)),
        _ => None,
    }
}
