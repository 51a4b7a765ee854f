//! Laws of what a caller does after the program. Each function here does nothing: its clauses are the law.
ghost use Rattle.std.specs.Prelude.{◌≡◌, ℕ};
ghost use Rattle.command_ends.specs.declared.status.Status.{Status};
ghost use Rattle.store_run.specs.Stores.{Store};
ghost use Rattle.editstore_main.specs.Renames.{RenamesTo, RenamesToEarlier};
ghost use Rattle.editstore_main.specs.StoreEnds.{RemakesBy};
ghost use Rattle.editstore_main.specs.declared.words.Upkeep.TheVariants.{Compact, Copy, Back};

use lens_io::{Disk, Sink};
use store_copy::RemadeSession;

/// After `Done` over a store the new file may be renamed to the name of the store: whatever a crash leaves there, at
/// each later moment, was possible before the call, or is a store of the state that is meant. So it is for the stores
/// of every kind that can be made anew.
///
/// - `compact`, `copy`: that is the state of the store.
/// - `back`: that is the earlier state, to which the store goes back.
pub fn a_rename_keeps_the_state<A: RemadeSession, K: Sink, D: Disk, E: Disk>()
    ensures compact { (old new : K × D × E) (store : Store D.Disk A.StoredSession old.1)
        → RemakesBy K.Sink D.Disk E.Disk old new Status.Done A.StoredSession A.beginning A.earlier Compact
        → RenamesTo D.Disk E.Disk (old.1, old.2) (new.1, new.2) A.StoredSession store.state }
    ensures copy { (old new : K × D × E) (store : Store D.Disk A.StoredSession old.1)
        → RemakesBy K.Sink D.Disk E.Disk old new Status.Done A.StoredSession A.beginning A.earlier Copy
        → RenamesTo D.Disk E.Disk (old.1, old.2) (new.1, new.2) A.StoredSession store.state }
    ensures back { (number : ℕ) (old new : K × D × E) (store : Store D.Disk A.StoredSession old.1)
        → RemakesBy K.Sink D.Disk E.Disk old new Status.Done A.StoredSession A.beginning A.earlier (Back number)
        → RenamesToEarlier D.Disk E.Disk (old.1, old.2) (new.1, new.2) A.StoredSession
        (A.earlier number store.payloads) }
{}
