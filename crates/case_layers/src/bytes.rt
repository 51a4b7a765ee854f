//! The bytes that a row gives, and the tree that they are read as.

use crate::arguments::{as_count, as_items, as_text, counts};
use crate::case::Case;
use anyhow::{Context, Result, bail};
use serde_json::Value;
use std::alloc::Global;

/// Returns the bytes that the row gives: those of `text` or `line`, the numbers `bytes`, or those of `repeat`. It is
/// refused if the row has none of these, or one of another form.
pub fn bytes(alloc: Global, case: &Case<'_>) -> Result<Vec<u8>> {
    if case.has("text") {
        return text_bytes(alloc, case.text("text")?);
    }
    if case.has("line") {
        return text_bytes(alloc, case.text("line")?);
    }
    if case.has("bytes") {
        return listed(alloc, case.argument("bytes")?);
    }
    repeated(alloc, case.items("repeat")?)
}

/// Returns the JSON tree that the row gives: `tree` itself, or what its bytes are read as. It is refused if they are
/// not JSON.
pub fn tree(alloc: Global, case: &Case<'_>) -> Result<Value> {
    if case.has("tree") {
        return Ok(case.argument("tree")?.clone()?);
    }
    let bytes = bytes(alloc, case)?;
    Ok(Value::from_slice(alloc, bytes.as_slice())?)
}

fn text_bytes(alloc: Global, text: &str) -> Result<Vec<u8>> {
    Ok(Vec::from_slice(alloc, text.as_bytes())?)
}

// The bytes that an array of numbers lists.
fn listed(alloc: Global, tree: &Value) -> Result<Vec<u8>> {
    let counts = counts(alloc, tree)?;
    let mut bytes = Vec::new(alloc);
    for count in counts.as_slice() {
        bytes.push(byte(*count)?)?;
    }
    Ok(bytes)
}

fn byte(count: u64) -> Result<u8> {
    u8::try_from(count).ok().context("a byte is above 255")
}

// The bytes of repetitions, one after another.
fn repeated(alloc: Global, parts: &[Value]) -> Result<Vec<u8>> {
    let mut bytes = Vec::new(alloc);
    for part in parts {
        repeat(alloc, &mut bytes, as_items(part)?)?;
    }
    Ok(bytes)
}

// Appends a repetition: a text, how often it comes, and maybe the first of the numbers for its `#`.
fn repeat(alloc: Global, bytes: &mut Vec<u8>, part: &[Value]) -> Result<()> {
    match part {
        [text, times] => repeat_text(bytes, as_text(text)?, as_count(times)?),
        [text, times, first] => {
            repeat_numbered(
                alloc,
                bytes,
                as_text(text)?,
                as_count(times)?,
                as_count(first)?,
            )
        }
        _ => bail!("a repetition has another form"),
    }
}

// Appends the text this many times.
fn repeat_text(bytes: &mut Vec<u8>, text: &str, times: u64) -> Result<()> {
    for _ in 0..times {
        bytes.extend_from_slice(text.as_bytes())?;
    }
    Ok(())
}

// Appends the text this many times, with the first number in place of each `#`, then the next number, and so on.
fn repeat_numbered(
    alloc: Global,
    bytes: &mut Vec<u8>,
    text: &str,
    times: u64,
    first: u64,
) -> Result<()> {
    for time in 0..times {
        let number = first.saturating_add(time);
        let digits = format!(in alloc; "{number}")?;
        append_filled(bytes, text, digits.as_bytes())?;
    }
    Ok(())
}

// Appends the text with the digits in place of each `#`.
fn append_filled(bytes: &mut Vec<u8>, text: &str, digits: &[u8]) -> Result<()> {
    for byte in text.as_bytes() {
        if *byte == b'#' {
            bytes.extend_from_slice(digits)?;
        } else {
            bytes.push(*byte)?;
        }
    }
    Ok(())
}
