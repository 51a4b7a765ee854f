//! What the store of a hub that is made anew keeps of its payloads.

use crate::session::RemadeSession;
use hub_copy::kept_records;
use hub_session::HubSession;
use lens_io::Payloads;
use std::alloc::{AllocError, Global};
use texts::Bytes;

// A store of a hub begins with its first payload, and those that add a view. It goes back to what its first payloads
// stand for, with the views that were added later.
impl RemadeSession for HubSession {
    ghost use Rattle.hub_copy.specs.KeptRecords as kept;
    ghost use Rattle.store_copy.specs.HubLaws as laws;

    ghost beginning = { kept.kept_records 1 };

    ghost earlier = { kept.kept_records };

    ghost snapshot_begins = { laws.snapshot_begins };

    ghost snapshot_forgets = { laws.snapshot_forgets };

    ghost earlier_stands = { laws.earlier_stands };

    ghost earlier_snapshot_stands = { laws.earlier_snapshot_stands };

    fn beginning(alloc: Global, payloads: &Payloads) -> Result<Vec<Bytes>, AllocError> {
        kept_records(alloc, 1, payloads)
    }

    fn earlier(alloc: Global, number: usize, payloads: &Payloads) -> Result<Payloads, AllocError> {
        let kept = kept_records(alloc, number, payloads)?;
        Ok(Payloads::from_vec(kept))
    }
}
