//! The payloads that bytes hold, what they count, and the places of their gates.

use crate::devices::run_over;
use crate::program::StorePrograms;
use anyhow::Result;
use gate_log::open_log;
use lens_io::{Bytes, MemDisk, Payloads};
use std::alloc::{AllocError, Global};

// The place of the first gate, and how many bytes a record has besides its payload: its gate and its length.
const FIRST_GATE: usize = 8;

const RECORD_HEAD: usize = 9;

/// The payloads that these bytes hold. `None` if they are not a log.
pub fn payloads_of(alloc: Global, bytes: &[u8]) -> Result<Option<Payloads>> {
    let held = Bytes::from_vec(bytes.to_vec(alloc)?);
    let mut disk = MemDisk::new(alloc, held, Vec::new(alloc))?;
    let Ok(log) = open_log(&mut disk) else {
        return Ok(None);
    };
    Ok(Some(log.payloads(alloc, &mut disk)?))
}

/// How many payloads these bytes hold; 0 if they are not a log.
pub fn count_of(alloc: Global, bytes: &[u8]) -> Result<usize> {
    let payloads = payloads_of(alloc, bytes)?;
    Ok(payloads.map_or(0, |held| held.as_slice().len()))
}

/// How many payloads these bytes hold, if they are the first ones of all these.
pub fn count_in_front(alloc: Global, bytes: &[u8], all: &[Bytes]) -> Result<Option<usize>> {
    let payloads = payloads_of(alloc, bytes)?;
    Ok(payloads.and_then(|held| front_length(held.as_slice(), all)))
}

fn front_length(held: &[Bytes], all: &[Bytes]) -> Option<usize> {
    let is_front = held.len() <= all.len()
        && held
            .iter()
            .zip(all)
            .all(|(a, b)| a.as_slice() == b.as_slice());
    is_front.then_some(held.len())
}

/// How many of these payloads are changes.
pub fn changes_in<C: StorePrograms>(payloads: &[Bytes]) -> usize {
    payloads
        .iter()
        .filter(|payload| C::is_change(payload.as_slice()))
        .count()
}

/// The places of the gates of a log that holds these payloads.
pub fn gates_of(alloc: Global, payloads: &[Bytes]) -> Result<Vec<usize>, AllocError> {
    let mut gates = Vec::new(alloc);
    let mut gate = FIRST_GATE;
    for payload in payloads {
        gates.push(gate)?;
        gate = gate
            .saturating_add(RECORD_HEAD)
            .saturating_add(payload.as_slice().len());
    }
    gates.push(gate)?;
    Ok(gates)
}

/// Whether `verify` says of these bytes that their session is consistent and has so many changes, and leaves them.
pub fn has_changes<C: StorePrograms>(alloc: Global, bytes: &[u8], changes: usize) -> Result<bool> {
    let run = run_over::<C>(alloc, "verify", bytes)?;
    let line = format!(in alloc; "consistent {changes}\n")?;
    Ok(run.status == 0 && run.output() == line.as_bytes() && run.disk.bytes() == bytes)
}
