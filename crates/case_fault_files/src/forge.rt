//! Stores of which one byte is changed, or the end is cut off.

use crate::devices::run_over;
use crate::lines::begins_with;
use crate::program::StorePrograms;
use crate::stores::{changes_in, gates_of, payloads_of};
use anyhow::Result;
use case_files::Step;
use lens_io::Bytes;
use std::alloc::{AllocError, Global};

// What a byte is changed to.
const VALUES: [u8; 3] = [0, 1, 255];

// A gate that is open.
const OPEN: u8 = 1;

// What a log begins with, and how many bytes the head of a record has: its gate and its length.
const MARK: &[u8] = b"EDLENS1\n";

const RECORD_HEAD: usize = 9;

/// How many stores were forged, and of how many something else was said than is wanted.
#[derive(Clone, Copy)]
pub struct Forged {
    pub stores: u64,
    pub differ: u64,
}

// What is to be said of a forged store.
#[derive(Clone, Copy)]
enum Told {
    NotALog,
    /// The log has a record at fault.
    BadRecord(usize),
    /// A payload is at fault, if none before it is.
    BadPayload(usize),
    /// The log ends behind the first records.
    Ends(usize),
    /// What is said of the store itself.
    Same,
    /// Any refusal, or any number of changes.
    Unknown,
}

/// Changes each byte in turn of the store of a step of `verify`, and cuts it at each length. What `verify` and `show`
/// say of it is compared with what docs/FORMATS.md says. A store that is not a log is left out.
pub fn forge_all<C: StorePrograms>(alloc: Global, step: &Step) -> Result<Forged> {
    let mut forged = Forged {
        stores: 0,
        differ: 0,
    };
    if let Some(held) = payloads_of(alloc, &step.store_before)? {
        forge_places::<C>(alloc, step, held.as_slice(), &mut forged)?;
    }
    Ok(forged)
}

fn forge_places<C: StorePrograms>(
    alloc: Global,
    step: &Step,
    held: &[Bytes],
    forged: &mut Forged,
) -> Result<()> {
    let gates = gates_of(alloc, held)?;
    for place in 0..step.store_before.len() {
        let cut = &step.store_before[..place];
        let told = log_fault(cut).unwrap_or(Told::Same);
        take::<C>(alloc, step, held, told, cut, forged)?;
        change_byte::<C>(alloc, step, held, &gates, place, forged)?;
    }
    Ok(())
}

fn change_byte<C: StorePrograms>(
    alloc: Global,
    step: &Step,
    held: &[Bytes],
    gates: &[usize],
    place: usize,
    forged: &mut Forged,
) -> Result<()> {
    let mut bytes = step.store_before.clone()?;
    for value in VALUES {
        if let Some(byte) = bytes.get_mut(place) {
            *byte = value;
        }
        if bytes.as_slice() != step.store_before.as_slice() {
            let told = told_of_change(gates, place, &bytes);
            take::<C>(alloc, step, held, told, &bytes, forged)?;
        }
    }
    Ok(())
}

// What is at fault with the log that these bytes are, apart from its payloads.
fn log_fault(bytes: &[u8]) -> Option<Told> {
    let mut rest = match bytes.get(MARK.len()..) {
        Some(behind) if begins_with(bytes, MARK) && !behind.is_empty() => behind,
        _ => return Some(Told::NotALog),
    };
    for record in 1..bytes.len() {
        if rest.first() != Some(&OPEN) {
            return None;
        }
        match behind_record(rest) {
            Some(behind) => rest = behind,
            None => return Some(Told::BadRecord(record)),
        }
    }
    None
}

// What follows the first record of these bytes, from the next gate on. `None` if that gate is not there.
fn behind_record(bytes: &[u8]) -> Option<&[u8]> {
    let length = little_endian(bytes.get(1..RECORD_HEAD)?);
    let behind = bytes.get(RECORD_HEAD..)?;
    if length < behind.len() as u64 {
        behind.get(length as usize..)
    } else {
        None
    }
}

fn little_endian(bytes: &[u8]) -> u64 {
    let mut number: u64 = 0;
    for byte in bytes.iter().rev() {
        number = number.saturating_mul(256).saturating_add(*byte as u64);
    }
    number
}

// What is to be said of a store whose log had these gates before this byte was changed. No changed byte leaves a
// payload of JSON.
fn told_of_change(gates: &[usize], place: usize, bytes: &[u8]) -> Told {
    if let Some(told) = log_fault(bytes) {
        return told;
    }
    let before = gates.iter().filter(|gate| **gate < place).count();
    let is_gate = gates.contains(&place);
    if is_gate && before.saturating_add(1) < gates.len() {
        Told::Ends(before)
    } else if is_gate && bytes.get(place) == Some(&OPEN) {
        Told::Unknown
    } else if is_gate || before == gates.len() {
        Told::Same
    } else {
        Told::BadPayload(before)
    }
}

fn take<C: StorePrograms>(
    alloc: Global,
    step: &Step,
    held: &[Bytes],
    told: Told,
    bytes: &[u8],
    forged: &mut Forged,
) -> Result<()> {
    forged.stores = forged.stores.saturating_add(1);
    let line = line_of::<C>(alloc, step, held, told)?;
    if !is_told::<C>(alloc, step, told, line.as_slice(), bytes)? {
        forged.differ = forged.differ.saturating_add(1);
    }
    Ok(())
}

// What `verify` is to write.
fn line_of<C: StorePrograms>(
    alloc: Global,
    step: &Step,
    held: &[Bytes],
    told: Told,
) -> Result<Vec<u8>, AllocError> {
    let line = match told {
        Told::NotALog => format!(in alloc; "store refused: not-a-log\n")?,
        Told::BadRecord(record) | Told::BadPayload(record) => {
            format!(in alloc; "store refused: bad-record {record}\n")?
        }
        Told::Ends(0) => format!(in alloc; "store refused: bad-record 1\n")?,
        Told::Ends(count) => {
            let changes = changes_in::<C>(held.get(..count).unwrap_or(held));
            format!(in alloc; "consistent {changes}\n")?
        }
        Told::Same | Told::Unknown => return step.output.clone(),
    };
    line.as_bytes().to_vec(alloc)
}

// Whether `verify` writes this line, or what it writes of the store itself where that is at fault before, and `show`
// says the same.
fn is_told<C: StorePrograms>(
    alloc: Global,
    step: &Step,
    told: Told,
    line: &[u8],
    bytes: &[u8],
) -> Result<bool> {
    let run = run_over::<C>(alloc, "verify", bytes)?;
    let may_be_before = matches!(told, Told::BadPayload(_) | Told::Ends(_))
        && step.head.status != 0;
    let is_line = run.output() == line || (may_be_before && run.output() == step.output.as_slice());
    let is_refused = begins_with(run.output(), b"store refused: ");
    let status = if is_refused { 4 } else { 0 };
    Ok(
        is_line
            && run.status == status
            && run.disk.bytes() == bytes
            && is_shown::<C>(alloc, is_refused, run.output(), bytes)?,
    )
}

// Whether `show` refuses a store by this line, or shows its state.
fn is_shown<C: StorePrograms>(
    alloc: Global,
    is_refused: bool,
    line: &[u8],
    bytes: &[u8],
) -> Result<bool> {
    let run = run_over::<C>(alloc, "show", bytes)?;
    let is_right = if is_refused {
        run.status == 4 && run.output() == line
    } else {
        run.status == 0 && C::is_state(run.output())
    };
    Ok(is_right && run.disk.bytes() == bytes)
}
