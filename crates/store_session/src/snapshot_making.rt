//! The payload of a snapshot of a session.

ghost use Rattle.std.specs.Prelude.{◌≡◌, IfOk, OnOk};
ghost use Rattle.store_session.specs.StoredStates.{HasSnapshot, snapshot_text};
ghost use Rattle.store_session.specs.SessionStates.{session_state};

use edit_session::Session;
use lens_flat::Flat;
use std::alloc::{AllocError, Global};
use store_records::snapshot_payload;
use texts::Bytes;

/// The payload of the snapshot of the session's triple. The only error is running out of memory.
pub fn snapshot_of(alloc: Global, session: &Session<Flat>) -> Result<Bytes, AllocError>
    ensures text { IfOk result (λ payload. payload ≡ snapshot_text (session_state session.now)) }
    ensures has { OnOk result (HasSnapshot (session_state session.now)) }
{
    let typed = session.lens().typed();
    let (left, right) = (session.left(), session.right());
    let payload = snapshot_payload(alloc, typed, left, session.comp(), right)?;
    Ok(payload)
}
