//! What `undo` needs of a kind of session: what undoing its last changes comes to, and how that is made.
ghost use Rattle.std.specs.Prelude.{◌≡◌, ◌++◌, List, ℕ, MatchResult, Some, None, option_to_list};
ghost use Rattle.std.specs.declared.option.Option.{Option};
ghost use Rattle.store_run.specs.Making.{IsMade, IsMakingFault};
ghost use Rattle.store_run.specs.declared.refusals.StoreRefusal.{StoreRefusal};

use crate::refusals::StoreRefusal;
use crate::storing::MoreText;
use lens_io::Payloads;
use std::alloc::{AllocError, Global};
use texts::Bytes;

/// What `undo` stores and writes.
#[derive(Drop)]
pub struct Making {
    /// The version record, if it is still to be stored.
    pub version: Option<Bytes>,
    /// The snapshot, and the lines.
    pub texts: MoreText,
}

/// Why nothing is made of payloads.
#[derive(Clone, Copy, Debug, PartialEq, Eq)]
pub enum MakingFault {
    /// The payloads are refused.
    Refused(StoreRefusal),
    /// Memory ran out.
    NoMemory,
}

impl From<AllocError> for MakingFault {
    ghost use Rattle.std.specs.Prelude.{◌≡◌};
    ghost use Rattle.store_run.specs.declared.undo_session.MakingFault.TheVariants.{NoMemory};

    ghost from_gives = { λ _ fault. fault ≡ NoMemory };

    fn from(_: AllocError) -> MakingFault {
        MakingFault::NoMemory
    }
}

/// A kind of session whose last changes can be undone, over the payloads of its store.
pub trait UndoneSession: Sized {
    /// What undoing comes to: what the payloads represent, and what was before the last changes.
    ghost Undone: { Type 0 };

    /// What undoing the last changes of payloads comes to, so many as the count says.
    ghost undoing: { ℕ → List (List ℕ) → Option Undone };

    /// Why payloads are refused, if they are.
    ghost refusal: { ℕ → List (List ℕ) → Option StoreRefusal };

    /// The version record, if it is still to be stored.
    ghost version_due: { Undone → Option (List ℕ) };

    /// The payload of the snapshot of what was before the last changes.
    ghost snapshot_text: { Undone → List ℕ };

    /// The lines: words that take each document back, and the state lines of what was before.
    ghost undo_text: { Undone → List ℕ };

    /// These payloads represent what there is before the call.
    ghost represents_now: { List (List ℕ) → Undone → Type 0 };

    /// The words take each document back to what it was before the last changes. That is in step, and the payloads
    /// represent it once the new records are behind them.
    ghost takes_back: { List (List ℕ) → Undone → Type 0 };

    /// What `undo` stores and writes over these payloads, or why they are refused.
    fn make(alloc: Global, count: u64, payloads: &Payloads) -> Result<Making, MakingFault>
        ensures { MatchResult result
            (IsMade (undoing count payloads.now) version_due snapshot_text undo_text (takes_back payloads.now))
            (IsMakingFault (refusal count payloads.now)) };

    /// Payloads whose last changes are undone are not refused.
    ghost never_refused: { (count : ℕ) (held : List (List ℕ)) (u : Undone)
        → undoing count held ≡ Some u → refusal count held ≡ None };

    /// The payloads represent what there is now, and with the version record behind them they do so, too.
    ghost version_stands: { (count : ℕ) (held front rest : List (List ℕ)) (u : Undone)
        → undoing count held ≡ Some u → option_to_list (version_due u) ≡ front ++ rest
        → represents_now (held ++ front) u };
}
