//! Repeats a task over a file, so that bench/library and bench/primitives can time it.
//!
//! Words: a task, a file, and how often the task is done; then more of these threes. The first line of the file is a
//! lens program, and the lines behind it are JSON:
//!
//! - `act`: a document of the left type, and then words. Each word is applied to that document.
//! - `act-right`: the same, with a document of the right type.
//! - `read`: a document of the left type. It is read from its tree.
//! - `write`: a document of the left type. Its tree is written.
//! - `decide`: a left document, a complement and a right document. It is decided whether they are consistent.
//!
//! A line for each task says what came out the last time: `yes` or `no` of a decision, and else the number of parts of
//! a document, which are the contents of a record or of a container. Of a word it says also whether anything changed.
#![tactic(auto)]

mod tasks;
mod values;

use crate::tasks::{acted, decided, read_often, write_often};
use crate::values::{first_line, lens_in};
use anyhow::{Context, Result, bail};
use lens_types::Typed;
use std::alloc::Global;
use std::rt::Files;
use std::{env, fs};

fn main(rt: HostRuntime) -> Result<()> {
    let words: Vec<String> = env::args(&rt)?.collect(rt.alloc())?;
    for three in words.as_slice().get(1..).unwrap_or(&[]).chunks(3) {
        run(&rt, three)?;
    }
    Ok(())
}

// Does a task, and prints what came out.
fn run<R: Files + AllocGlobal + Print>(rt: &R, words: &[String]) -> Result<()> {
    let [task, file, times] = words else {
        bail!("give a task, a file and a number of times");
    };
    let text = fs::read_to_string(rt, file.as_str()).context("the file is not read")?;
    let times = times.as_str().parse::<u64>()?;
    let came = outcome(rt.alloc(), task.as_str(), text.as_str(), times)?;
    println!(rt; "{task} {file}: {came}")?;
    Ok(())
}

// What comes of a task over the text of a file.
fn outcome(alloc: Global, task: &str, text: &str, times: u64) -> Result<String> {
    let (program, values) = first_line(text)?;
    let lens = lens_in(alloc, program)?;
    outcome_by(alloc, &lens, task, values, times)
}

// The same, with the lens of the file and the lines behind it.
fn outcome_by(alloc: Global, lens: &Typed, task: &str, values: &str, times: u64) -> Result<String> {
    match task {
        "act" => acted(alloc, lens.left(), values, times),
        "act-right" => acted(alloc, lens.right(), values, times),
        "read" => read_often(alloc, lens.left(), values, times),
        "write" => write_often(alloc, lens.left(), values, times),
        "decide" => decided(alloc, lens, values, times),
        _ => bail!("there is no such task"),
    }
}
