//! One run of a command over devices in memory, of which one call may fail, or give or take less.

ghost use Rattle.std.specs.Prelude.{◌↔◌, ◌<◌, All, IsTrue};

use anyhow::{Result, bail};
use case_files::{Commands, Step};
use lens_io::{Bytes, Disk, MemDisk, MemSink, MemSource, Sink, Source};
use std::alloc::{AllocError, Global};

// The call of this number, from 0, of each device fails in every run. No step makes so many.
const MOST_CALLS: u64 = 2_000;

// The lengths of the pieces that the source gives and of those that the sink takes. They are small, so that each is
// called often.
const SOURCE_PIECE: u64 = 7;

const SINK_PIECE: u64 = 5;

/// What one call of a device does.
#[derive(Clone, Copy, Debug, PartialEq, Eq)]
pub enum Fault {
    /// A call of the source fails.
    Source,
    /// A call of the source gives one byte.
    ShortSource,
    /// A call of the sink fails.
    Sink,
    /// A call of the sink takes nothing.
    EmptySink,
    /// A call of the sink takes one byte.
    ShortSink,
    /// A call of the disk fails.
    Disk,
}

impl Fault {
    /// The exit code of a command that this stops. `None` if the command goes on.
    pub fn status(self) -> Option<u8> {
        match self {
            Fault::Source => Some(5),
            Fault::Sink | Fault::EmptySink => Some(6),
            Fault::Disk => Some(7),
            Fault::ShortSource | Fault::ShortSink => None,
        }
    }
}

/// How many bytes the source has given before the call of this number, at most.
pub fn given_before(call: u64) -> u64 {
    call.saturating_mul(SOURCE_PIECE)
}

/// How many calls of each device a command has made.
#[derive(Clone, Copy)]
pub struct Calls {
    source: u64,
    sink: u64,
    disk: u64,
}

impl Calls {
    /// How many calls there are of the device of this fault.
    pub fn of(&self, fault: Fault) -> u64 {
        match fault {
            Fault::Source | Fault::ShortSource => self.source,
            Fault::Sink | Fault::EmptySink | Fault::ShortSink => self.sink,
            Fault::Disk => self.disk,
        }
    }
}

/// A command that has ended, and its devices.
#[derive(Drop)]
pub struct Run {
    pub status: u8,
    source: MemSource,
    sink: MemSink,
    pub disk: MemDisk,
}

impl Run {
    /// What the command wrote.
    pub fn output(&self) -> &[u8] {
        self.sink.bytes()
    }

    /// Whether this is what the step wants where nothing fails.
    pub fn is_wanted(&self, step: &Step) -> bool {
        self.status as u64 == step.head.status
            && self.output() == step.output.as_slice()
            && self.disk.bytes() == step.store_after.as_slice()
    }

    /// How many calls the command has made: the call of number `MOST_CALLS` fails, and the calls up to it are made
    /// here.
    pub fn count_calls(&mut self) -> Calls {
        Calls {
            source: source_calls(&mut self.source),
            sink: sink_calls(&mut self.sink),
            disk: disk_calls(&mut self.disk),
        }
    }
}

fn source_calls(source: &mut MemSource) -> u64 {
    let mut byte = [0_u8; 1];
    for more in 0..=MOST_CALLS {
        if source.take(&mut byte).is_err() {
            return MOST_CALLS.saturating_sub(more);
        }
    }
    0
}

fn sink_calls(sink: &mut MemSink) -> u64 {
    for more in 0..=MOST_CALLS {
        if sink.give(b".").is_err() {
            return MOST_CALLS.saturating_sub(more);
        }
    }
    0
}

fn disk_calls(disk: &mut MemDisk) -> u64 {
    for more in 0..=MOST_CALLS {
        if disk.len().is_err() {
            return MOST_CALLS.saturating_sub(more);
        }
    }
    0
}

/// Runs the command of a step. The call of this number does what the fault says. With none, no call does.
pub fn run_step<C: Commands>(
    alloc: Global,
    step: &Step,
    fails: Option<(Fault, u64)>,
) -> Result<Run> {
    let source = source_of(alloc, &step.input, fails)?;
    let sink = sink_of(alloc, step.output.len(), fails)?;
    let disk = disk_of(alloc, &step.store_before, fails)?;
    run_words::<C>(alloc, &step.head.words, source, sink, disk)
}

/// Runs a command of one word, which reads nothing, over a store of these bytes.
pub fn run_over<C: Commands>(alloc: Global, word: &str, store: &[u8]) -> Result<Run> {
    let mut words = Vec::new(alloc);
    words.push(String::from_str(alloc, "program")?)?;
    words.push(String::from_str(alloc, word)?)?;
    let source = source_of(alloc, &[], None)?;
    let sink = MemSink::new(alloc, Vec::new(alloc), Vec::new(alloc));
    let disk = disk_of(alloc, store, None)?;
    run_words::<C>(alloc, &words, source, sink, disk)
}

fn run_words<C: Commands>(
    alloc: Global,
    words: &[String],
    mut source: MemSource,
    mut sink: MemSink,
    mut disk: MemDisk,
) -> Result<Run> {
    let status = C::run(alloc, words, &mut source, &mut sink, &mut disk);
    if sink.memory_faults() > 0 || disk.memory_faults() > 0 {
        bail!("the output or the store does not fit in memory");
    }
    Ok(Run {
        status,
        source,
        sink,
        disk,
    })
}

fn source_of(alloc: Global, input: &[u8], fails: Option<(Fault, u64)>) -> Result<MemSource> {
    let pieces = lengths_of(
        alloc,
        input.len(),
        SOURCE_PIECE,
        fails,
        Fault::ShortSource,
        1,
    )?;
    if !are_positive(&pieces) {
        bail!("a piece has 0 bytes");
    }
    let calls = calls_of(alloc, fails, Fault::Source)?;
    Ok(MemSource::new(Bytes::from_vec(input.to_vec(alloc)?), pieces, calls))
}

fn sink_of(alloc: Global, length: usize, fails: Option<(Fault, u64)>) -> Result<MemSink> {
    let takes = match fails {
        Some((Fault::EmptySink, _)) => {
            lengths_of(alloc, length, SINK_PIECE, fails, Fault::EmptySink, 0)?
        }
        _ => lengths_of(alloc, length, SINK_PIECE, fails, Fault::ShortSink, 1)?,
    };
    Ok(MemSink::new(alloc, takes, calls_of(alloc, fails, Fault::Sink)?))
}

fn disk_of(alloc: Global, store: &[u8], fails: Option<(Fault, u64)>) -> Result<MemDisk> {
    let calls = calls_of(alloc, fails, Fault::Disk)?;
    Ok(MemDisk::new(alloc, Bytes::from_vec(store.to_vec(alloc)?), calls)?)
}

// As many lengths of pieces as there are bytes: this one, and at the call of this fault another.
fn lengths_of(
    alloc: Global,
    count: usize,
    length: u64,
    fails: Option<(Fault, u64)>,
    fault: Fault,
    short: u64,
) -> Result<Vec<u64>, AllocError> {
    let mut lengths = vec![in alloc; length; count]?;
    if let Some((which, call)) = fails {
        if which == fault {
            if let Some(found) = lengths.get_mut(call as usize) {
                *found = short;
            }
        }
    }
    Ok(lengths)
}

// The numbers of the calls that fail of a device.
fn calls_of(
    alloc: Global,
    fails: Option<(Fault, u64)>,
    fault: Fault,
) -> Result<Vec<u64>, AllocError> {
    let mut calls = Vec::new(alloc);
    calls.push(MOST_CALLS)?;
    if let Some((which, call)) = fails {
        if which == fault {
            calls.push(call)?;
        }
    }
    Ok(calls)
}

fn are_positive(numbers: &[u64]) -> bool
    ensures { IsTrue result ↔ All (λ number. 0 < number) numbers.now }
{
    numbers.iter().all(|&number| number > 0)
}
