//! What the command `undo` needs of the store of a hub.

use crate::making::make;
use lens_io::Payloads;
use std::alloc::Global;
use store_run::{Making, MakingFault, UndoneSession};

/// The hubs of stores, as `undo` of store_run takes their last changes back. No version record is still to be stored.
pub struct HubUndo;

impl UndoneSession for HubUndo {
    ghost use Rattle.std.specs.Prelude.{None};
    ghost use Rattle.hub_undo.specs.HubUndoing as of_hubs;
    ghost use Rattle.hub_undo.specs.UndoLaws as laws;

    ghost Undone = { of_hubs.HubUndoing };

    ghost undoing = { of_hubs.hub_undoing };

    ghost refusal = { of_hubs.hub_undo_refusal };

    ghost version_due = { λ _. None };

    ghost snapshot_text = { of_hubs.hub_undo_snapshot_text };

    ghost undo_text = { of_hubs.hub_undo_text };

    ghost represents_now = { of_hubs.RepresentsNow };

    ghost takes_back = { of_hubs.HubTakesBack };

    ghost never_refused = { laws.never_refused };

    ghost version_stands = { laws.version_stands };

    fn make(alloc: Global, count: u64, payloads: &Payloads) -> Result<Making, MakingFault> {
        make(alloc, count, payloads.as_slice())
    }
}
