//! A law of `undo` of a hub. The function does nothing: its clause is the law.

ghost use Rattle.std.specs.Prelude.{◌≡◌, ◌⊎◌, ℕ, List, Some};
ghost use Rattle.store_run.specs.declared.refusals.StoreRefusal.{StoreRefusal};
ghost use Rattle.hub_undo.specs.HubUndoing.{HubUndoing, hub_undo_refusal, hub_undoing};

/// Whatever the payloads of a store are, undoing their last changes comes to something, or they are refused for a
/// reason.
pub fn hub_undone_or_refused()
    ensures { (count : ℕ) (payloads : List (List ℕ))
        → ((u : HubUndoing) × (hub_undoing count payloads ≡ Some u))
        ⊎ ((refusal : StoreRefusal) × (hub_undo_refusal count payloads ≡ Some refusal)) }
{}
