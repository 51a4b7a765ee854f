//! What a store that is made anew keeps of its payloads, for each kind of store. Each function here does nothing: its
//! clauses are the laws.

ghost use Rattle.std.specs.Prelude.{◌≡◌, ℕ, List, take};
ghost use Rattle.hub_copy.specs.KeptRecords.{kept_records};
ghost use Rattle.store_copy.specs.PairBeginnings.{pair_beginning};
ghost use Rattle.store_copy.specs.contracts.hub_stores.HubSessionRemadeSession.TheImpl.{ghosts as hubs};
ghost use Rattle.store_copy.specs.contracts.pair_stores.StoreSessionRemadeSession.TheImpl.{ghosts as pairs};

/// The store of a pair that is compacted begins with the first record, and the version record if that one says version
/// 1. A store that goes back goes to the state after its first records.
pub fn pairs_keep_first_records()
    ensures beginning { (payloads : List (List ℕ)) → pairs.beginning payloads ≡ pair_beginning payloads }
    ensures earlier { (number : ℕ) (payloads : List (List ℕ))
        → pairs.earlier number payloads ≡ take number payloads }
{}

/// The store of a hub that is compacted begins with the first record, and those that add a view. A store that goes back
/// goes to what its first records and the later ones that add a view stand for.
pub fn hubs_keep_their_views()
    ensures beginning { (payloads : List (List ℕ)) → hubs.beginning payloads ≡ kept_records 1 payloads }
    ensures earlier { (number : ℕ) (payloads : List (List ℕ))
        → hubs.earlier number payloads ≡ kept_records number payloads }
{}
