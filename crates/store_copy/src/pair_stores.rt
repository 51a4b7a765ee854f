//! What the store of a pair of documents that is made anew keeps of its payloads.
ghost use Rattle.std.specs.Prelude.{◌≡◌, IfOk, take};
ghost use Rattle.store_records.specs.StoredLens.{stored_lens};
ghost use Rattle.store_session.specs.StoredStates.{version_for};
ghost use Rattle.store_copy.specs.PairBeginnings.{pair_beginning, version_due};

use crate::new_payloads::same_bytes;
use crate::session::RemadeSession;
use lens_io::Payloads;
use std::alloc::{AllocError, Global};
use store_records::{RecordFault, stored_lens, version_payload};
use store_session::StoreSession;
use texts::Bytes;

// The version of a store whose version record is still to be stored.
const FIRST_VERSION: u64 = 1;

impl RemadeSession for StoreSession {
    ghost use Rattle.std.specs.Prelude.{take};
    ghost use Rattle.store_copy.specs.EarlierLaws as going_back;
    ghost use Rattle.store_copy.specs.PairBeginnings as pairs;
    ghost use Rattle.store_copy.specs.PairLaws as laws;

    ghost beginning = { pairs.pair_beginning };

    ghost earlier = { take };

    ghost snapshot_begins = { laws.snapshot_begins };

    ghost snapshot_forgets = { laws.snapshot_forgets };

    ghost earlier_stands = { going_back.earlier_stands };

    ghost earlier_snapshot_stands = { going_back.earlier_snapshot_stands };

    fn beginning(alloc: Global, payloads: &Payloads) -> Result<Vec<Bytes>, AllocError> {
        first_records(alloc, payloads)
    }

    fn earlier(alloc: Global, number: usize, payloads: &Payloads) -> Result<Payloads, AllocError> {
        first_payloads(alloc, number, payloads)
    }
}

// The first payloads, as many as the number says, or all.
fn first_payloads(alloc: Global, number: usize, payloads: &Payloads) -> Result<Payloads, AllocError>
    ensures { IfOk result (λ front. front ≡ take number payloads.now) }
{
    let records = payloads.as_slice();
    let count = number.min(records.len());
    let mut front = Vec::new(alloc);
    for next in 0..count {
        front.push(same_bytes(alloc, records[next].as_slice())?)?;
    }
    Ok(Payloads::from_vec(front))
}

// The first payload, and the version record if that payload says version 1.
fn first_records(alloc: Global, payloads: &Payloads) -> Result<Vec<Bytes>, AllocError>
    ensures { IfOk result (λ begun. begun.items ≡ pair_beginning payloads.now) }
{
    let version = version_due(alloc, payloads)?;
    let mut begun = first_payload(alloc, payloads)?;
    if let Some(version) = version {
        begun.push(version)?;
    }
    Ok(begun)
}

// The first payload, if there is one.
fn first_payload(alloc: Global, payloads: &Payloads) -> Result<Vec<Bytes>, AllocError>
    ensures { IfOk result (λ first. first.items ≡ take 1 payloads.now) }
{
    let mut first = Vec::new(alloc);
    let records = payloads.as_slice();
    if !records.is_empty() {
        first.push(same_bytes(alloc, records[0].as_slice())?)?;
    }
    Ok(first)
}

// The version record, if the first record says version 1.
fn version_due(alloc: Global, payloads: &Payloads) -> Result<Option<Bytes>, AllocError>
    ensures { IfOk result (λ due. due ≡ version_due (stored_lens payloads.now)) }
{
    match stored_lens(alloc, payloads) {
        Ok(stored) => {
            let version = stored.version;
            drop(stored);
            version_record(alloc, version)
        }
        Err(RecordFault::NoMemory) => Err(AllocError),
        Err(_) => Ok(None),
    }
}

// The version record of a store of version 1.
fn version_record(alloc: Global, version: u64) -> Result<Option<Bytes>, AllocError>
    ensures { IfOk result (λ record_due. record_due ≡ version_for version) }
{
    if version == FIRST_VERSION {
        return Ok(Some(version_payload(alloc)?));
    }
    Ok(None)
}
