//! One step run over devices in memory, and how it differs from what is wanted.

ghost use Rattle.std.specs.Prelude.{◌≡◌, ◌↔◌, ◌<◌, All, IsTrue};

use crate::commands::Commands;
use crate::step::Step;
use anyhow::{Result, bail};
use lens_io::{Bytes, MemDisk, MemSink, MemSource};
use std::alloc::{AllocError, Global};

/// What a command wrote, its exit code, and what the store has after it.
#[derive(Drop)]
pub struct Outcome {
    pub status: u8,
    pub output: Vec<u8>,
    pub store: Vec<u8>,
}

impl Outcome {
    /// Whether the status, the output and the store are those that the step wants.
    pub fn agrees(&self, step: &Step) -> bool {
        self.status as u64 == step.head.status
            && self.output.as_slice() == step.output.as_slice()
            && self.store.as_slice() == step.store_after.as_slice()
    }
}

/// Runs the command of a step, with its input in the pieces that the step says.
pub fn run_step<C: Commands>(alloc: Global, step: &Step) -> Result<Outcome> {
    run_in_pieces::<C>(alloc, step, step.head.pieces.clone()?)
}

/// Runs the command of a step with its input in pieces of one length.
pub fn run_cut<C: Commands>(alloc: Global, step: &Step, piece: u64) -> Result<Outcome> {
    let pieces = vec![in alloc; piece; step.input.len()]?;
    run_in_pieces::<C>(alloc, step, pieces)
}

fn run_in_pieces<C: Commands>(alloc: Global, step: &Step, pieces: Vec<u64>) -> Result<Outcome> {
    if !are_positive(&pieces) {
        bail!("a piece has 0 bytes");
    }
    let input = Bytes::from_vec(step.input.clone()?);
    let mut source = MemSource::new(input, pieces, step.head.source_fails.clone()?);
    let mut sink = MemSink::new(
        alloc,
        step.head.takes.clone()?,
        step.head.sink_fails.clone()?,
    );
    let store = Bytes::from_vec(step.store_before.clone()?);
    let mut disk = MemDisk::new(alloc, store, Vec::new(alloc))?;
    let status = C::run(alloc, &step.head.words, &mut source, &mut sink, &mut disk);
    if sink.memory_faults() > 0 || disk.memory_faults() > 0 {
        bail!("the output or the store does not fit in memory");
    }
    Ok(Outcome {
        status,
        output: sink.bytes().to_vec(alloc)?,
        store: disk.bytes().to_vec(alloc)?,
    })
}

fn are_positive(numbers: &[u64]) -> bool
    ensures { IsTrue result ↔ All (λ number. 0 < number) numbers.now }
{
    numbers.iter().all(|&number| number > 0)
}

/// Writes what was wanted and what came of a step of the case with this number, from 1.
pub fn write_difference(
    alloc: Global,
    into: &mut Vec<u8>,
    case: u64,
    step: &Step,
    outcome: &Outcome,
) -> Result<(), AllocError> {
    let number = step.head.step;
    let words = &step.head.words;
    let heading = format!(in alloc; "case {case}, step {number}, words {words:?}\n")?;
    into.extend_from_slice(heading.as_bytes())?;
    write_outcome(alloc, into, "wanted", step.head.status, &step.output)?;
    write_outcome(alloc, into, "came", outcome.status as u64, &outcome.output)?;
    if outcome.store.as_slice() == step.store_after.as_slice() {
        return Ok(());
    }
    write_store(alloc, into, "wanted", &step.store_after)?;
    write_store(alloc, into, "came", &outcome.store)
}

// A store, under a label.
fn write_store(
    alloc: Global,
    into: &mut Vec<u8>,
    label: &str,
    store: &[u8],
) -> Result<(), AllocError> {
    let count = store.len();
    let heading = format!(in alloc; "{label} a store of {count} bytes:\n")?;
    into.extend_from_slice(heading.as_bytes())?;
    into.extend_from_slice(store)?;
    into.extend_from_slice(b"\n".as_slice())
}

// A status and an output, under a label.
fn write_outcome(
    alloc: Global,
    into: &mut Vec<u8>,
    label: &str,
    status: u64,
    output: &[u8],
) -> Result<(), AllocError> {
    let count = output.len();
    let heading = format!(in alloc; "{label} status {status} and {count} bytes:\n")?;
    into.extend_from_slice(heading.as_bytes())?;
    into.extend_from_slice(output)?;
    into.extend_from_slice(b"\n".as_slice())
}
