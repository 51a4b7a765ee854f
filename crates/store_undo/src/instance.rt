//! What the command `undo` needs of a store of two documents.

use crate::making::make;
use lens_io::Payloads;
use std::alloc::Global;
use store_run::{Making, MakingFault, UndoneSession};

/// The sessions of stores of two documents, as `undo` of store_run takes their last changes back.
pub struct PairUndo;

impl UndoneSession for PairUndo {
    ghost use Rattle.store_undo.specs.UndoLaws as laws;
    ghost use Rattle.store_undo.specs.UndoRecords as records;
    ghost use Rattle.store_undo.specs.Undoing as of_pairs;

    ghost Undone = { of_pairs.Undoing };

    ghost undoing = { of_pairs.undoing };

    ghost refusal = { of_pairs.undo_refusal };

    ghost version_due = { λ u. records.version_due u.now.version };

    ghost snapshot_text = { records.undo_snapshot_text };

    ghost undo_text = { records.undo_text };

    ghost represents_now = { records.RepresentsNow };

    ghost takes_back = { records.TakesBack };

    ghost never_refused = { laws.never_refused };

    ghost version_stands = { laws.version_stands };

    fn make(alloc: Global, count: u64, payloads: &Payloads) -> Result<Making, MakingFault> {
        make(alloc, count, payloads)
    }
}
