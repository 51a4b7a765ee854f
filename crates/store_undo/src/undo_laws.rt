//! Laws of undoing. Each function here does nothing: its clauses are the laws.

ghost use Rattle.std.specs.Prelude.{◌≡◌, ◌++◌, ℕ, List, Some, None, Ok};
ghost use Rattle.gate_log.specs.LogOnDisk.{HoldsPayloads};
ghost use Rattle.edit_session.specs.Step.{IsInStep};
ghost use Rattle.lens_core.specs.Consistency.{IsConsistent};
ghost use Rattle.store_run.specs.UndoCall.{undo_refusal_in};
ghost use Rattle.store_run.specs.declared.refusals.StoreRefusal.{StoreRefusal};
ghost use Rattle.store_run.specs.declared.refusals.StoreRefusal.TheVariants.{NothingToUndo};
ghost use Rattle.store_session.specs.Stands.{Standing, stands};
ghost use Rattle.store_undo.specs.UndoRecords.{new_records, TakesBack};
ghost use Rattle.store_undo.specs.contracts.instance.PairUndoUndoneSession.TheImpl.{ghosts as pairs};
ghost use Rattle.store_undo.specs.Undoing.{Undoing, undoing, undo_refusal, last_changes};
ghost use Rattle.store_undo.specs.Undoing.{payloads_before};

/// A disk of known bytes is refused by `undo`, or its last changes are undone, and never both.
///
/// - `undone`: bytes that are not refused hold payloads whose last changes are undone.
/// - `refused`: payloads that are refused are not undone.
/// - `nothing`: `nothing-to-undo` comes only for payloads that represent a session, and their last records are not so
///   many changes.
/// - `before`: payloads that are undone represent a session, and `undo` stores the triple that those before the last
///   changes represent.
pub fn undone_or_refused()
    ensures undone { (count : ℕ) (bytes : List ℕ) → undo_refusal_in pairs count bytes ≡ None
        → (held : List (List ℕ)) × (u : Undoing) × HoldsPayloads held bytes × (undoing count held ≡ Some u) }
    ensures refused { (count : ℕ) (held : List (List ℕ)) (refusal : StoreRefusal)
        → undo_refusal count held ≡ Some refusal → undoing count held ≡ None }
    ensures nothing { (count : ℕ) (held : List (List ℕ)) → undo_refusal count held ≡ Some NothingToUndo
        → (now : Standing) × (stands held ≡ Ok now) × (last_changes count held ≡ None) }
    ensures before { (count : ℕ) (held : List (List ℕ)) (u : Undoing) → undoing count held ≡ Some u
        → (stands held ≡ Ok u.now)
        × (was : Standing) × (stands (payloads_before count held) ≡ Ok was) × (was.triple ≡ u.before)
        × (was.form ≡ u.now.form) }
{}

/// What a store represents after `undo` is in step: its triple is consistent for the form of its lens.
pub fn undone_is_in_step()
    ensures { (held : List (List ℕ)) (u : Undoing) (after : Standing)
        → TakesBack held u → stands (held ++ new_records u) ≡ Ok after
        → (after.triple ≡ u.before) × IsInStep (IsConsistent after.form) after.triple }
{}
