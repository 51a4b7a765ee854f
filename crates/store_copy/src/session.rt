//! What a store that is made anew needs of its session.
ghost use Rattle.std.specs.Prelude.{◌≡◌, ◌∷◌, ◌++◌, [], List, ℕ, Ok, None, IfOk};
ghost use Rattle.std.specs.declared.option.Option.{Option};
ghost use Rattle.store_copy.specs.Earlier.{EarlierStands, EarlierSnapshotStands};

use lens_io::Payloads;
use std::alloc::{AllocError, Global};
use store_run::StoredSession;
use texts::Bytes;

/// A stored session of which a store can be made anew: with one snapshot in place of its history, or so that it goes
/// back to an earlier state.
pub trait RemadeSession: StoredSession {
    /// The payloads that a store with one snapshot begins with, of those of the store that is there.
    ghost beginning: { List (List ℕ) → List (List ℕ) };

    /// The payloads that stand for the state to which a store goes back, of the number of a record and all payloads.
    ghost earlier: { ℕ → List (List ℕ) → List (List ℕ) };

    /// The payloads that a store with one snapshot begins with. The only error is running out of memory.
    fn beginning(alloc: Global, payloads: &Payloads) -> Result<Vec<Bytes>, AllocError>
        ensures { IfOk result (λ begun. begun.items ≡ beginning payloads.now) };

    /// The payloads that stand for the state to which a store goes back. The only error is running out of memory.
    fn earlier(alloc: Global, number: usize, payloads: &Payloads) -> Result<Payloads, AllocError>
        ensures { IfOk result (λ front. front ≡ earlier number payloads.now) };

    /// Behind those that it begins with the snapshot of the state stands for the state.
    ghost snapshot_begins: { (ps : List (List ℕ)) (t : Self.State) (v : Option (List ℕ))
        → Self.stands_for ps ≡ Ok (t, v) → Self.has_snapshot t
        → Self.stands_for (beginning ps ++ Self.snapshot_text t ∷ []) ≡ Ok (t, None) };

    /// None of these payloads is one of a change.
    ghost snapshot_forgets: { (ps : List (List ℕ)) (t : Self.State) (v : Option (List ℕ))
        → Self.stands_for ps ≡ Ok (t, v) → Self.has_snapshot t
        → Self.count_of (beginning ps ++ Self.snapshot_text t ∷ []) ≡ 0 };

    /// Of payloads that stand for a state, those of the earlier one stand for one.
    ghost earlier_stands: { EarlierStands Self.StoredSession earlier };

    /// The snapshot of the earlier state stands for that state behind all payloads.
    ghost earlier_snapshot_stands: { EarlierSnapshotStands Self.StoredSession earlier };
}
