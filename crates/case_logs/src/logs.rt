//! Questions about complete logs: what bytes open to, calls that are stopped, and logs of many sizes.

use gate_log::{LogFault, create_log, open_log};
use lens_io::{Bytes, MemDisk, Payloads, SureDisk};
use std::alloc::{AllocError, Global};

/// The log of one record with the payload `old`, and more bytes that would be open gates.
pub const OLD: &[u8] =
    b"EDLENS1\n\x01\x03\0\0\0\0\0\0\0old\0\x01\x01\x01\x01\x01\x01\x01\x01\x01\x01\x01\x01\x01\x01";

/// A disk in memory with these bytes, of which each call from number `from` on fails.
pub fn failing(alloc: Global, bytes: &[u8], from: u64) -> Result<MemDisk, AllocError> {
    let mut fails = Vec::new(alloc);
    for later in 0..8 {
        fails.push(from.saturating_add(later))?;
    }
    MemDisk::new(alloc, Bytes::from_vec(bytes.to_vec(alloc)?), fails)
}

/// What these bytes open to: the number of records and of bytes in all payloads, or the fault.
pub fn opened(alloc: Global, numbers: &[u64]) -> anyhow::Result<String> {
    let mut bytes = Vec::new(alloc);
    for number in numbers {
        bytes.push(u8::try_from(*number)?)?;
    }
    let mut disk = MemDisk::new(alloc, Bytes::from_vec(bytes), Vec::new(alloc))?;
    let log = match open_log(&mut disk) {
        Ok(log) => log,
        Err(fault) => return Ok(format!(in alloc; "{fault}")?),
    };
    let payloads = log.payloads(alloc, &mut disk)?;
    let size = total_len(payloads.as_slice());
    Ok(format!(in alloc; "{} records {size} bytes", log.count())?)
}

// The sum of the lengths.
fn total_len(payloads: &[Bytes]) -> usize {
    let mut total: usize = 0;
    for payload in payloads {
        total = total.saturating_add(payload.as_slice().len());
    }
    total
}

/// What a call returns if each call of the disk from number `stop` on fails: 0 is `create_log` on an empty disk, 1
/// `create_log` on a log, 2 `open_log`, 3 `payloads` of a log that was opened before.
pub fn stopped_call(alloc: Global, call: u64, stop: u64) -> anyhow::Result<String> {
    let result = match call {
        0 => create_log(&mut failing(alloc, b"", stop)?).map(|log| log.count()),
        1 => create_log(&mut failing(alloc, OLD, stop)?).map(|log| log.count()),
        2 => open_log(&mut failing(alloc, OLD, stop)?).map(|log| log.count()),
        _ => stopped_payloads(alloc, stop)?.map(|payloads| payloads.as_slice().len() as u64),
    };
    match result {
        Ok(count) => Ok(format!(in alloc; "{count} records")?),
        Err(fault) => Ok(format!(in alloc; "{fault}")?),
    }
}

// The opening makes the calls 0 to 3 of the disk: a sync, the length, the mark and the gates.
fn stopped_payloads(alloc: Global, stop: u64) -> anyhow::Result<Result<Payloads, LogFault>> {
    let mut disk = failing(alloc, OLD, stop.saturating_add(4))?;
    let log = open_log(&mut disk)?;
    Ok(log.payloads(alloc, &mut disk))
}

/// Makes a log with so many payloads of a size, for each pair of the two numbers, and reads it again.
pub fn with_sizes(alloc: Global, sizes: &[u64]) -> anyhow::Result<String> {
    let mut disk = SureDisk::new(alloc, Bytes::from_vec(Vec::new(alloc)), ROOM)?;
    fill(alloc, &mut disk, sizes)?;
    let again = open_log(&mut disk)?;
    let payloads = again.payloads(alloc, &mut disk)?;
    let size = total_len(payloads.as_slice());
    let kept = are_kept(sizes, payloads.as_slice());
    let count = again.count();
    Ok(format!(in alloc; "{count} records {size} bytes {kept}")?)
}

// The room of a disk for a log of many sizes.
const ROOM: u64 = 1 << 22;

// Makes the log.
fn fill(alloc: Global, disk: &mut SureDisk, sizes: &[u64]) -> anyhow::Result<()> {
    let mut log = create_log(disk)?;
    'pairs: for pair in sizes.chunks(2) {
        if let [times, size] = pair {
            let payload = vec![in alloc; fill_of(*size); *size as usize]?;
            'times: for _ in 0..*times {
                log.append(alloc, disk, &payload)?;
            }
        }
    }
    Ok(())
}

// The byte of which a payload of this size has as many.
fn fill_of(size: u64) -> u8 {
    (size % 251) as u8
}

// Whether these are the payloads that such a log was made with.
fn are_kept(sizes: &[u64], payloads: &[Bytes]) -> bool {
    let mut rest = payloads;
    for pair in sizes.chunks(2) {
        if let [times, size] = pair {
            for _ in 0..*times {
                let Some((first, more)) = rest.split_first() else {
                    return false;
                };
                if !is_payload(first.as_slice(), *size) {
                    return false;
                }
                rest = more;
            }
        }
    }
    rest.is_empty()
}

fn is_payload(payload: &[u8], size: u64) -> bool {
    payload.len() as u64 == size && payload.iter().all(|byte| *byte == fill_of(size))
}
