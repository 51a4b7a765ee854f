//! Questions about the records of five payloads: how each is stored, and what becomes of them when they are changed.

use anyhow::Context;
use gate_log::{LogFault, create_log};
use lens_io::{Bytes, Payloads, SureDisk};
use sealed_log::{UnsealFault, create_sealed_log, open_sealed_log, seal, seal_record, unseal};
use std::alloc::{AllocError, Global};

// The payloads.
const PAYLOADS: [&str; 5] = [
    "{\"program\":\"main {a ~ b: id int}\",\"version\":2}",
    "{\"entry\":{\"edit\":[{\"at\":[\"a\",[{\"set\":5}]]}],\"side\":\"left\"}}",
    "",
    "{\"version\":2}",
    "{\"version\":2}",
];

// The room of a disk.
const ROOM: u64 = 1 << 16;

/// How the payload with this number, counted from 1, is stored as the record `number` behind the seal `before`.
pub fn sealed_text(
    alloc: Global,
    before: u32,
    number: u64,
    payload: u64,
) -> anyhow::Result<String> {
    let text = PAYLOADS
        .get((payload as usize).saturating_sub(1))
        .context("no payload")?;
    let record = seal_record(alloc, before, number, text.as_bytes())?;
    Ok(String::from_utf8(record.bytes.into_vec()).context("no text")?)
}

/// What the records unseal to when a byte of one is another. The record is counted from 1, and the place from 0.
pub fn changed(alloc: Global, record: u64, place: u64, byte: u8) -> anyhow::Result<String> {
    let records = stored(alloc)?.into_vec();
    let mut all = Vec::new(alloc);
    let mut number: u64 = 0;
    for it in records {
        number = number.saturating_add(1);
        let mut bytes = it.into_vec();
        if number == record {
            *bytes.get_mut(place as usize).context("no place")? = byte;
        }
        all.push(Bytes::from_vec(bytes))?;
    }
    unsealed(alloc, &all)
}

/// What the records with these numbers unseal to, in this order, and what a log of them opens to.
pub fn moved(alloc: Global, numbers: &[u64]) -> anyhow::Result<String> {
    let records = stored(alloc)?;
    let mut all = Vec::new(alloc);
    for number in numbers {
        let it = records
            .as_slice()
            .get((*number as usize).saturating_sub(1))
            .context("no record")?;
        all.push(Bytes::from_vec(it.as_slice().to_vec(alloc)?))?;
    }
    let mut disk = SureDisk::new(alloc, Bytes::from_vec(Vec::new(alloc)), ROOM)?;
    fill(alloc, &mut disk, &all)?;
    let opened = match open_sealed_log(alloc, &mut disk) {
        Ok(opened) => format!(in alloc; "{} records", opened.log.count())?,
        Err(fault) => format!(in alloc; "{fault}")?,
    };
    let list = unsealed(alloc, &all)?;
    Ok(format!(in alloc; "{list}, {opened}")?)
}

/// Keeps the first payloads in a sealed log, and opens it again.
pub fn kept(alloc: Global, count: u64) -> anyhow::Result<String> {
    let mut disk = SureDisk::new(alloc, Bytes::from_vec(Vec::new(alloc)), ROOM)?;
    append_first(alloc, &mut disk, count)?;
    let opened = open_sealed_log(alloc, &mut disk)?;
    let all = opened.log.payloads(alloc, &mut disk)?;
    let is_same = are_first(all.as_slice()) && are_first(opened.payloads.as_slice());
    let count = opened.log.count();
    Ok(format!(in alloc; "{count} records {is_same}")?)
}

// Whether these are the first payloads.
fn are_first(payloads: &[Bytes]) -> bool {
    let mut wanted = PAYLOADS.iter();
    for payload in payloads {
        match wanted.next() {
            Some(text) if payload.as_slice() == text.as_bytes() => {}
            _ => return false,
        }
    }
    true
}

// The records of all payloads.
fn stored(alloc: Global) -> Result<Payloads, AllocError> {
    let mut payloads = Vec::new(alloc);
    for text in PAYLOADS {
        payloads.push(Bytes::from_vec(text.as_bytes().to_vec(alloc)?))?;
    }
    seal(alloc, &payloads)
}

// What records unseal to.
fn unsealed(alloc: Global, records: &[Bytes]) -> anyhow::Result<String> {
    let text = match unseal(alloc, records) {
        Ok(it) => format!(in alloc; "{} payloads", it.payloads.as_slice().len())?,
        Err(UnsealFault::BadRecord { number }) => format!(in alloc; "bad {number}")?,
        Err(UnsealFault::NoMemory) => format!(in alloc; "no memory")?,
    };
    Ok(text)
}

// A log of these records.
fn fill(alloc: Global, disk: &mut SureDisk, records: &[Bytes]) -> Result<(), LogFault> {
    let mut log = create_log(disk)?;
    for i in 0..records.len() {
        log.append(alloc, disk, records[i].as_slice())?;
    }
    Ok(())
}

// A sealed log of the first payloads.
fn append_first(alloc: Global, disk: &mut SureDisk, count: u64) -> Result<(), LogFault> {
    let mut log = create_sealed_log(disk)?;
    for i in 0..PAYLOADS.len().min(count as usize) {
        log.append(alloc, disk, PAYLOADS[i].as_bytes())?;
    }
    Ok(())
}
