//! Runs commands over inputs that are too long: of more than 2^30 bytes, and with a line that is one byte too long.
//!
//! Most of the long inputs never end. No memory holds such an input, so a source makes its bytes. Each command that
//! reads one is stopped behind 2^30 bytes, with the answers to the lines before. Only a program part that is refused
//! ends it sooner. Each command gives a line with its name, its status and the length of the store that it leaves, and
//! then what it wrote.
#![tactic(auto)]

mod endless;

use crate::endless::{LINE, source_of};
use editlens_main::{editlens, run_sure};
use lens_io::{Bytes, MemDisk, MemSink, Source, SureDisk, SureSink, SureSource};
use std::alloc::{AllocError, Global};
use std::io::{self, Write};

/// The most bytes of an input.
const MOST: usize = 1 << 30;

/// Commands over a disk that is empty, with what their inputs begin with.
const ENDLESS: [(&str, &str); 8] = [
    ("run", ""),
    (
        "run",
        "main id int\n---\n{\"side\":\"left\",\"edit\":[{\"set\":5}]}\n",
    ),
    ("run", "main idd int\n---\n"),
    ("init", "main id int\n---\n"),
    ("import", "main id int\n---\n5\n"),
    ("hub", ""),
    (
        "hub",
        "main id int\n---\n{\"at\":\"hub\",\"edit\":[{\"set\":5}]}\n",
    ),
    (
        "link",
        "main id int\n---\n{\"edit\":[\"left\",[{\"set\":5}]]}\n",
    ),
];

/// Commands that read a script. Its journal has a line that is too long.
const LONG_LINES: [&str; 4] = ["run", "import", "hub", "link"];

/// What an endless journal of `apply` begins with.
const ENTRY: &str = "{\"side\":\"left\",\"edit\":[{\"set\":5}]}\n";

fn main(rt: HostRuntime) -> anyhow::Result<()> {
    let alloc = rt.alloc();
    for (command, head) in ENDLESS {
        let mut disk = empty_disk(alloc)?;
        let report = ended(alloc, command, &mut source_of(head), &mut disk)?;
        io::writer(&rt).write_all(&report)?;
    }
    let report = over_a_store(alloc)?;
    io::writer(&rt).write_all(&report)?;
    for command in LONG_LINES {
        let mut disk = empty_disk(alloc)?;
        let mut source = SureSource::new(long_line(alloc, "main id text\n---\n")?);
        let report = ended(alloc, command, &mut source, &mut disk)?;
        io::writer(&rt).write_all(&report)?;
    }
    let report = in_memory(alloc)?;
    io::writer(&rt).write_all(&report)?;
    Ok(())
}

// Calls the program with this command, and returns how it ended.
fn ended<S: Source>(
    alloc: Global,
    command: &str,
    source: &mut S,
    disk: &mut MemDisk,
) -> Result<Vec<u8>, AllocError> {
    let words = words_of(alloc, command)?;
    let mut sink = MemSink::new(alloc, Vec::new(alloc), Vec::new(alloc));
    let status = editlens(alloc, &words, source, &mut sink, disk).code();
    report_of(alloc, command, status, disk.bytes().len(), sink.bytes())
}

// The words of a command line.
fn words_of(alloc: Global, command: &str) -> Result<Vec<String>, AllocError> {
    let mut words = Vec::new(alloc);
    for word in ["editlens", command] {
        words.push(String::from_str(alloc, word)?)?;
    }
    Ok(words)
}

// The line of a command, and then what it wrote.
fn report_of(
    alloc: Global,
    name: &str,
    status: u8,
    size: usize,
    output: &[u8],
) -> Result<Vec<u8>, AllocError> {
    let line = format!(in alloc; "{name}: status {status}, store of {size} bytes, output:\n")?;
    let mut report = line.into_bytes();
    report.extend_from_slice(output)?;
    Ok(report)
}

// A store is made, an endless journal is applied to it, and then one with a line that is too long. The store is counted
// at the end.
fn over_a_store(alloc: Global) -> Result<Vec<u8>, AllocError> {
    let mut disk = empty_disk(alloc)?;
    let mut program = SureSource::new(bytes_of(alloc, "main id int")?);
    let mut reports = ended(alloc, "init", &mut program, &mut disk)?;
    let applied = ended(alloc, "apply", &mut source_of(ENTRY), &mut disk)?;
    reports.extend_from_slice(&applied)?;
    let mut journal = SureSource::new(long_line(alloc, "")?);
    let refused = ended(alloc, "apply", &mut journal, &mut disk)?;
    reports.extend_from_slice(&refused)?;
    let mut nothing = SureSource::new(bytes_of(alloc, "")?);
    let counted = ended(alloc, "verify", &mut nothing, &mut disk)?;
    reports.extend_from_slice(&counted)?;
    Ok(reports)
}

// `check` over a script of one byte too many, which memory holds.
fn in_memory(alloc: Global) -> Result<Vec<u8>, AllocError> {
    let words = words_of(alloc, "check")?;
    let mut script = Vec::new(alloc);
    script.extend_from_slice(b"main id int\n---\n")?;
    script.resize(MOST + 1, b' ')?;
    let mut source = SureSource::new(Bytes::from_vec(script));
    let mut sink = SureSink::new(alloc, 0)?;
    let mut disk = SureDisk::new(alloc, Bytes::from_vec(Vec::new(alloc)), 0)?;
    let status = run_sure(alloc, &words, &mut source, &mut sink, &mut disk).code();
    report_of(
        alloc,
        "check in memory",
        status,
        disk.bytes().len(),
        sink.bytes(),
    )
}

// A text and behind it a JSON string on a line that is one byte longer than a line may be.
fn long_line(alloc: Global, head: &str) -> Result<Bytes, AllocError> {
    let mut text = Vec::new(alloc);
    text.extend_from_slice(head.as_bytes())?;
    text.push(b'"')?;
    for _ in 0..LINE - 1 {
        text.push(b'x')?;
    }
    text.extend_from_slice(b"\"\n")?;
    Ok(Bytes::from_vec(text))
}

fn bytes_of(alloc: Global, text: &str) -> Result<Bytes, AllocError> {
    let mut bytes = Vec::new(alloc);
    bytes.extend_from_slice(text.as_bytes())?;
    Ok(Bytes::from_vec(bytes))
}

fn empty_disk(alloc: Global) -> Result<MemDisk, AllocError> {
    MemDisk::new(alloc, bytes_of(alloc, "")?, Vec::new(alloc))
}
