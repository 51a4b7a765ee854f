//! Laws of the stores of hubs. Each function here does nothing: its clauses are the law.
ghost use Rattle.std.specs.Prelude.{◌≡◌, ℕ, List, Some, Ok};
ghost use Rattle.std.specs.declared.option.Option.{Option};
ghost use Rattle.hub_run.specs.Runs.{HubState};
ghost use Rattle.hub_session.specs.HubStates.{hub_stands_for};
ghost use Rattle.store_run.specs.Refusals.{refusal_in};
ghost use Rattle.store_run.specs.declared.refusals.StoreRefusal.{StoreRefusal};
ghost use Rattle.edithub_main.specs.HubStores.{HoldsHub, HubStaysInStep, IsRefusedOrHub};

use hub_session::HubSession;
use store_run::StoredSession;

/// Every hub stays in step: whatever the payloads of a store are, each view of the hub that they represent is in its
/// lens's consistency relation with the hub's document, and so it is in every state of a run from it on.
pub fn every_stored_hub_stays_in_step()
    ensures { (payloads : List (List ℕ)) (state : HubState) (version : Option (List ℕ))
        → hub_stands_for payloads ≡ Ok (state, version) → HubStaysInStep state }
{}

/// Whatever bytes a disk holds, they are refused as the store of a hub, or they are a log whose payloads represent a
/// hub that is in step.
///
/// - `either`: one of the two is so for all bytes, so the commands over a store refuse them or go on from such a hub.
/// - `one`: both are never so.
pub fn every_disk_is_refused_or_holds_a_hub()
    ensures either { (bytes : List ℕ) → IsRefusedOrHub bytes }
    ensures one { (bytes : List ℕ) (refusal : StoreRefusal) → refusal_in ⟦<HubSession as StoredSession>⟧ bytes
        ≡ Some refusal → HoldsHub bytes → ⊥ }
{}
