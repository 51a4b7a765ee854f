//! Questions about crashes: what a disk that was stopped in mid-call leaves, for an append and for wrong ways to store.

ghost use Rattle.std.specs.Prelude.{◌≤◌, length};

use crate::logs::{OLD, failing};
use gate_log::open_log;
use lens_io::{Bytes, Disk, Failed, MemDisk};
use std::alloc::Global;

// The payload that is added, and its record with the gates before and behind it.
const NEW: &[u8] = b"new!";

const RECORD: &[u8] = b"\x01\x04\0\0\0\0\0\0\0new!\0";

// The place of the closed gate of the log before.
const GATE: u64 = 20;

// How many calls of the disk the opening makes: a sync, the length, the mark and the gates.
const OPENING: u64 = 4;

/// What `append` returns if the disk fails from its call number `stop` on, and what a crash then leaves: of the writes
/// that were not synced the first `kept`, and `fill` in the place of the others.
pub fn after_append(alloc: Global, stop: u64, kept: u64, fill: u8) -> anyhow::Result<String> {
    let mut disk = failing(alloc, OLD, stop.saturating_add(OPENING))?;
    let mut log = open_log(&mut disk)?;
    let answer = match log.append(alloc, &mut disk, NEW) {
        Ok(()) => "ok",
        Err(_) => "fault",
    };
    let sound = log.sound();
    let image = held(alloc, disk.after_crash(alloc, kept, fill)?)?;
    Ok(format!(in alloc; "{answer} sound {sound} {image}")?)
}

/// What a crash leaves of one of six ways to store a record, of which only the first one, number 0, is right.
pub fn after_way(
    alloc: Global,
    way: u64,
    stop: u64,
    kept: u64,
    fill: u8,
) -> anyhow::Result<String> {
    let mut disk = failing(alloc, OLD, stop)?;
    let _ = store(&mut disk, way);
    held(alloc, disk.after_crash(alloc, kept, fill)?)
}

// What the bytes hold: the payload from before, that and the new one, or anything else.
fn held(alloc: Global, image: Bytes) -> anyhow::Result<String> {
    let mut disk = MemDisk::new(alloc, image, Vec::new(alloc))?;
    let Ok(log) = open_log(&mut disk) else {
        return Ok(String::from_str(alloc, "no log")?);
    };
    let payloads = log.payloads(alloc, &mut disk)?;
    let text = match payloads.as_slice() {
        [first] if is_old(first) => "before",
        [first, second] if is_old(first) && second.as_slice() == NEW => "after",
        _ => "neither",
    };
    Ok(String::from_str(alloc, text)?)
}

fn is_old(payload: &Bytes) -> bool {
    payload.as_slice() == b"old".as_slice()
}

// Stores a record behind the log: 0 as `append` does, 1 without the first sync, 2 without the second one, 3 with the
// gate opened first, 4 without the next gate, 5 with the gate together with the payload.
fn store(disk: &mut MemDisk, way: u64) -> Result<(), Failed> {
    match way {
        0 => write_both(disk, &RECORD[1..]),
        1 => {
            disk.write_at(GATE + 1, &RECORD[1..])?;
            disk.write_at(GATE, &[1])?;
            disk.sync()
        }
        2 => {
            disk.write_at(GATE + 1, &RECORD[1..])?;
            disk.sync()?;
            disk.write_at(GATE, &[1])
        }
        3 => {
            disk.write_at(GATE, &[1])?;
            disk.sync()?;
            disk.write_at(GATE + 1, &RECORD[1..])?;
            disk.sync()
        }
        4 => write_both(disk, &RECORD[1..RECORD.len() - 1]),
        _ => {
            disk.write_at(GATE, RECORD)?;
            disk.sync()
        }
    }
}

fn write_both(disk: &mut MemDisk, record: &[u8]) -> Result<(), Failed>
    requires { length record.now ≤ 100 }
{
    disk.write_at(GATE + 1, record)?;
    disk.sync()?;
    disk.write_at(GATE, &[1])?;
    disk.sync()
}
