//! The line of JSON at the head of a step.

use anyhow::{Result, bail};
use serde_json::Value;
use std::alloc::Global;
use std::str;

/// What the line says of its step.
#[derive(Drop)]
pub struct Head {
    /// The number of the step in its case, from 0.
    pub step: u64,
    /// The words of the command, the program's name first.
    pub words: Vec<String>,
    /// The exit code that is wanted.
    pub status: u64,
    /// The lengths of the input, of the output, and of the stores before and after, in bytes.
    pub lengths: Lengths,
    /// The lengths of the pieces that the source gives. None is 0.
    pub pieces: Vec<u64>,
    /// The numbers of the calls of the source that fail.
    pub source_fails: Vec<u64>,
    /// The lengths of the pieces that the sink takes.
    pub takes: Vec<u64>,
    /// The numbers of the calls of the sink that fail.
    pub sink_fails: Vec<u64>,
}

impl Head {
    /// Whether the line says in which pieces the source gives the input, or which of its calls fail.
    pub fn says_source(&self) -> bool {
        !self.pieces.is_empty() || !self.source_fails.is_empty()
    }
}

/// The lengths of the parts that follow the line, in bytes.
#[derive(Clone, Copy)]
pub struct Lengths {
    pub input: u64,
    pub output: u64,
    pub store_before: Option<u64>,
    pub store_after: Option<u64>,
}

/// Reads the line, which is one JSON object.
pub fn read_head(alloc: Global, line: &[u8]) -> Result<Head> {
    let Ok(text) = str::from_utf8(line) else {
        bail!("the line of a step is not text");
    };
    let head = Value::from_str(alloc, text)?;
    let pieces = read_numbers(alloc, &head, "pieces")?;
    if pieces.contains(&0) {
        bail!("a piece has 0 bytes");
    }
    Ok(Head {
        step: read_number(&head, "step")?,
        words: read_words(alloc, &head)?,
        status: read_number(&head, "status")?,
        lengths: read_lengths(&head)?,
        pieces,
        source_fails: read_numbers(alloc, &head, "source_fails")?,
        takes: read_numbers(alloc, &head, "takes")?,
        sink_fails: read_numbers(alloc, &head, "sink_fails")?,
    })
}

fn read_lengths(head: &Value) -> Result<Lengths> {
    Ok(Lengths {
        input: read_number(head, "input")?,
        output: read_number(head, "output")?,
        store_before: head.get("store_before").and_then(Value::as_u64),
        store_after: head.get("store_after").and_then(Value::as_u64),
    })
}

fn read_number(head: &Value, name: &str) -> Result<u64> {
    match head.get(name).and_then(Value::as_u64) {
        Some(number) => Ok(number),
        None => bail!("the line of a step has no number `{name}`"),
    }
}

// The words of the command behind the program's name.
fn read_words(alloc: Global, head: &Value) -> Result<Vec<String>> {
    let mut words = Vec::new(alloc);
    words.push(String::from_str(alloc, "editlens")?)?;
    let Some(Value::Array(items)) = head.get("words") else {
        bail!("the line of a step has no list of words");
    };
    for item in items {
        let Value::String(word) = item else {
            bail!("a word is not a string");
        };
        words.push(word.clone()?)?;
    }
    Ok(words)
}

// A list of numbers, empty where the line has no such member.
fn read_numbers(alloc: Global, head: &Value, name: &str) -> Result<Vec<u64>> {
    let mut numbers = Vec::new(alloc);
    match head.get(name) {
        None => {}
        Some(Value::Array(items)) => {
            for item in items {
                let Some(number) = item.as_u64() else {
                    bail!("`{name}` has an item that is not a number");
                };
                numbers.push(number)?;
            }
        }
        Some(_) => bail!("`{name}` is not a list"),
    }
    Ok(numbers)
}
