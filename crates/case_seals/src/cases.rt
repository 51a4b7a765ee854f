//! Lines with a question and the answer that is wanted, and what they come to.

use crate::seals::{changed, kept, moved, sealed_text};
use anyhow::{Context, bail};
use std::alloc::Global;

/// How many cases there were, and a text for each whose answer is not the one that is wanted.
#[derive(Drop)]
pub struct Report {
    pub cases: u64,
    pub differences: Vec<String>,
}

/// Goes through the lines.
pub fn differences(alloc: Global, lines: &[String]) -> anyhow::Result<Report> {
    let mut report = Report {
        cases: 0,
        differences: Vec::new(alloc),
    };
    for line in lines {
        let (question, wanted) = line.split_once(" = ").context("no answer is wanted")?;
        let came = answer(alloc, question)?;
        report.cases = report.cases.saturating_add(1);
        if came.as_str() != wanted {
            let text = format!(in alloc; "wanted {line}, came {came}")?;
            report.differences.push(text)?;
        }
    }
    Ok(report)
}

// The answer to a question, which is a word and numbers.
fn answer(alloc: Global, question: &str) -> anyhow::Result<String> {
    let mut words = question.split(' ');
    let word = words.next().context("an empty line")?;
    let mut numbers = Vec::new(alloc);
    for number in words {
        numbers.push(number.parse::<u64>().context("no number")?)?;
    }
    match (word, numbers.as_slice()) {
        ("record", [before, number, payload]) => {
            sealed_text(alloc, u32::try_from(*before)?, *number, *payload)
        }
        ("change", [record, place, byte]) => {
            changed(alloc, *record, *place, u8::try_from(*byte)?)
        }
        ("records", numbers) => moved(alloc, numbers),
        ("log", [count]) => kept(alloc, *count),
        _ => bail!("no such question: {word}"),
    }
}
