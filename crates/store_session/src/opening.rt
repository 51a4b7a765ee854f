//! The session for which the payloads of a store stand.

ghost use Rattle.std.specs.Prelude.{◌≡◌, ℕ, List, Ok, Some, IfOk, MatchResult};
ghost use Rattle.edit_session.specs.Views.{triple_tree};
ghost use Rattle.lens_forms.specs.Forms.{form_tree};
ghost use Rattle.store_records.specs.StoredLens.{stored_lens};
ghost use Rattle.store_run.specs.Reopening.{IsReopenFault};
ghost use Rattle.store_session.specs.ReopenOutcomes.{IsReopenFault as IsRecordFault};
ghost use Rattle.store_session.specs.Stands.{stands};
ghost use Rattle.store_session.specs.Standings.{standing};
ghost use Rattle.store_session.specs.StoredStates.{stands_for, changes_counted, fault_of, version_for};
ghost use Rattle.store_session.specs.SessionStates.{session_state};

use crate::session::StoreSession;
use crate::{OpenedRecords, reopen};
use json::Scratch;
use lens_flat::Flat;
use lens_io::Payloads;
use std::alloc::{AllocError, Global};
use store_records::{RecordFault, StoredLens, stored_lens, version_payload};
use store_run::{Opened, ReopenFault};
use texts::Bytes;

// The version of a store whose version record is still to be stored.
const FIRST_VERSION: u64 = 1;

// The session for which payloads stand, with the version record if it is still to be stored, and the number of changes.
pub(crate) fn open(alloc: Global, payloads: &Payloads) -> Result<Opened<StoreSession>, ReopenFault>
    ensures stands { MatchResult result
        (λ o. stands_for payloads.now ≡ Ok (session_state o.session.session, o.version))
        (IsReopenFault (stands_for payloads.now)) }
    ensures count { IfOk result (λ o. o.count ≡ changes_counted payloads.now) }
{
    match open_records(alloc, payloads) {
        Ok(opened) => with_version(alloc, opened),
        Err(fault) => Err(stored_fault(fault)),
    }
}

/// The fault in the words of a store. Does not allocate.
pub fn stored_fault(fault: RecordFault) -> ReopenFault
    ensures { result ≡ fault_of fault }
{
    match fault {
        RecordFault::BadRecord { number } => ReopenFault::BadRecord { number },
        RecordFault::NotConsistent { number } => ReopenFault::NotConsistent { number },
        RecordFault::NoMemory => ReopenFault::NoMemory,
    }
}

// What was opened, with the version record of a store of version 1.
fn with_version(
    alloc: Global,
    opened: OpenedRecords<Flat>,
) -> Result<Opened<StoreSession>, ReopenFault>
    ensures stands { (payloads : List (List ℕ))
        → stands payloads
        ≡ Ok (standing (form_tree opened.session.lens.typed)
        (triple_tree opened.session.triple) opened.count opened.version)
        → MatchResult result
        (λ o. stands_for payloads ≡ Ok (session_state o.session.session, o.version))
        (IsReopenFault (stands_for payloads)) }
    ensures count { IfOk result (λ o. o.count ≡ opened.count) }
{
    match version_record(alloc, opened.version) {
        Ok(version) => Ok(Opened {
            session: StoreSession {
                session: opened.session,
                scratch: Scratch::new(alloc),
            },
            version,
            count: opened.count,
        }),
        Err(AllocError) => Err(ReopenFault::NoMemory),
    }
}

// The version record of a store of version 1; a store of version 2 has it.
fn version_record(alloc: Global, version: u64) -> Result<Option<Bytes>, AllocError>
    ensures { IfOk result (λ text. text ≡ version_for version) }
{
    if version == FIRST_VERSION {
        return Ok(Some(version_payload(alloc)?));
    }
    Ok(None)
}

// The session for which payloads stand, over the lens of the first one.
fn open_records(alloc: Global, payloads: &Payloads) -> Result<OpenedRecords<Flat>, RecordFault>
    ensures stands { MatchResult result
        (λ o. stands payloads.now
        ≡ Ok (standing (form_tree o.session.lens.typed) (triple_tree o.session.triple) o.count o.version))
        (IsRecordFault (stands payloads.now)) }
{
    match stored_lens(alloc, payloads) {
        Ok(stored) => open_with(alloc, &stored, payloads),
        Err(fault) => Err(fault),
    }
}

#[tactic(auto, using(lens_flat::proofs::FormLenses::is_lens_of))]
fn open_with(
    alloc: Global,
    stored: &StoredLens,
    payloads: &Payloads,
) -> Result<OpenedRecords<Flat>, RecordFault>
    requires stored { stored_lens payloads.now ≡ Some (form_tree stored.now.typed, stored.now.version) }
    ensures stands { MatchResult result
        (λ o. stands payloads.now
        ≡ Ok (standing (form_tree o.session.lens.typed) (triple_tree o.session.triple) o.count o.version))
        (IsRecordFault (stands payloads.now)) }
{
    let lens = Flat::compile(alloc, &stored.typed)?;
    reopen(alloc, lens, stored, payloads)
}
