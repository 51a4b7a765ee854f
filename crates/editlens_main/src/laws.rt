//! Laws of stores. Each function here does nothing: its clauses are the law.
ghost use Rattle.std.specs.Prelude.{◌≡◌, ℕ, List, Some, Ok};
ghost use Rattle.std.specs.declared.option.Option.{Option};
ghost use Rattle.store_session.specs.Journals.{IsStateInStep};
ghost use Rattle.store_session.specs.StoredStates.{StoredState, stands_for};
ghost use Rattle.store_run.specs.Refusals.{refusal_in};
ghost use Rattle.store_run.specs.declared.refusals.StoreRefusal.{StoreRefusal};
ghost use Rattle.editlens_main.specs.Stores.{HoldsPair, IsRefusedOrPair};

use store_run::StoredSession;
use store_session::StoreSession;
use store_session::session_laws::stored_is_in_step;

/// Every store stays in step: whatever its payloads are, the state that they represent is in the consistency relation
/// of its lens.
pub fn every_store_stays_in_step()
    ensures { (payloads : List (List ℕ)) (state : StoredState) (version : Option (List ℕ)) → stands_for payloads
        ≡ Ok (state, version) → IsStateInStep state }
{
    stored_is_in_step()
}

/// Whatever bytes a disk holds, they are refused as a store, or they are a log whose payloads represent a state that is
/// in step.
///
/// - `either`: one of the two is so for all bytes, so the commands over a store refuse them or go on from a consistent
///   triple.
/// - `one`: both are never so.
pub fn every_disk_is_refused_or_in_step()
    ensures either { (bytes : List ℕ) → IsRefusedOrPair bytes }
    ensures one { (bytes : List ℕ) (refusal : StoreRefusal) → refusal_in ⟦<StoreSession as StoredSession>⟧ bytes
        ≡ Some refusal → HoldsPair bytes → ⊥ }
{}
