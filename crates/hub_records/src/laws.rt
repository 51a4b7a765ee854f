//! Laws of what payloads stand for. Each function here does nothing: its clauses are the laws.
//!
//! They are what the commands on the store of a hub rely on: what the program writes stands.

ghost use Rattle.std.specs.Prelude.{◌≡◌, ◌≤◌, ◌+◌, ◌++◌, ◌∷◌, [], ℕ, List, Some, Ok, true, length};
ghost use Rattle.serde_json.specs.Data.{depth};
ghost use Rattle.serde_json.specs.Read.{max_depth};
ghost use Rattle.edit_journal.specs.EntryJson.{tree_of_text};
ghost use Rattle.texts.specs.declared.side.Side.{Side};
ghost use Rattle.edit_module.specs.Words.{WordTree};
ghost use Rattle.edit_session.specs.Step.{TripleTree};
ghost use Rattle.lens_forms.specs.Forms.{FormTree};
ghost use Rattle.program_terms.specs.Terms.{ProgramTree};
ghost use Rattle.program_writing.specs.Canonical.{canonical};
ghost use Rattle.lens_syntax.specs.Programs.{unbounded};
ghost use Rattle.program_accepted.specs.Program.{form_of_program};
ghost use Rattle.view_hub.specs.Hubs.{HubTree, CarriedTree};
ghost use Rattle.view_hub.specs.Laws.{IsHub};
ghost use Rattle.hub_run.specs.FormLenses.{form_lens};
ghost use Rattle.hub_run.specs.FoundLenses.{AllTyped};
ghost use Rattle.hub_records.specs.HubChanges.{HubChangeTree, all_counts_fit, all_numbers_fit, edits_of};
ghost use Rattle.hub_records.specs.HubChanges.{tree_of_hub_change};
ghost use Rattle.hub_records.specs.HubLenses.{joins};
ghost use Rattle.hub_records.specs.HubRecords.{hub_record_in, tree_of_added, tree_of_hub_snapshot};
ghost use Rattle.hub_records.specs.HubStands.{HubStanding, hub_after_record, stands_as_hub, hub_step_of, view_more};
ghost use Rattle.hub_records.specs.LowForms.{AllLow};
ghost use Rattle.hub_records.specs.OneView.{IsSessionGroup, IsSessionStep};
ghost use Rattle.hub_records.specs.WholeInts.{hub_holds_i64s};

/// One more record goes on from what stands before it.
pub fn one_more_record()
    ensures { (payloads : List (List ℕ)) (payload : List ℕ) (before : HubStanding)
        → stands_as_hub payloads ≡ Ok before
        → stands_as_hub (payloads ++ payload ∷ [])
        ≡ hub_after_record (length payloads + 1) before (hub_record_in payload) }
{}

/// What the program writes behind a hub that stands, stands too: a change that is accepted, which counts one; a view
/// more whose lens may stand behind the others; and a snapshot of a hub that is in step.
pub fn written_records_stand()
    ensures change { (payloads : List (List ℕ)) (payload : List ℕ) (before : HubStanding)
        (change : HubChangeTree) (hub : HubTree) (words : List CarriedTree)
        → stands_as_hub payloads ≡ Ok before
        → tree_of_text payload ≡ Some (tree_of_hub_change change)
        → all_counts_fit (edits_of change) ≡ true → all_numbers_fit (edits_of change) ≡ true
        → hub_step_of before.forms before.hub change ≡ Some (Ok (hub, words))
        → stands_as_hub (payloads ++ payload ∷ [])
        ≡ Ok (record before { hub = hub; count = before.count + 1 }) }
    ensures view { (payloads : List (List ℕ)) (payload : List ℕ) (before : HubStanding)
        (text : List ℕ) (program : ProgramTree) (form : FormTree) (hub : HubTree)
        → stands_as_hub payloads ≡ Ok before
        → tree_of_text payload ≡ Some (tree_of_added (canonical program))
        → unbounded text ≡ Ok program → form_of_program (Ok program) ≡ Ok form
        → joins before.forms form ≡ true → view_more form before.hub ≡ Some hub
        → stands_as_hub (payloads ++ payload ∷ [])
        ≡ Ok (record before { forms = before.forms ++ form ∷ []; hub = hub }) }
    ensures snapshot { (payloads : List (List ℕ)) (payload : List ℕ) (before : HubStanding)
        → stands_as_hub payloads ≡ Ok before
        → tree_of_text payload ≡ Some (tree_of_hub_snapshot before.forms before.hub)
        → AllTyped before.forms → IsHub form_lens before.forms before.hub
        → hub_holds_i64s before.hub ≡ true
        → stands_as_hub (payloads ++ payload ∷ []) ≡ Ok before }
{}

/// What stands is in step: all lenses are typed, and each view's complement and document are in its lens's relation
/// with the hub's document.
pub fn stood_is_in_step()
    ensures typed { (payloads : List (List ℕ)) (standing : HubStanding) → stands_as_hub payloads ≡ Ok standing
        → AllTyped standing.forms }
    ensures in_step { (payloads : List (List ℕ)) (standing : HubStanding) → stands_as_hub payloads ≡ Ok standing
        → IsHub form_lens standing.forms standing.hub }
{}

/// The tree of a change that is accepted does not nest too deep for the reader of JSON, so its payload is read back.
pub fn accepted_changes_are_shallow()
    ensures { (forms : List FormTree) (before after : HubTree) (change : HubChangeTree)
        (words : List CarriedTree) → AllLow forms
        → hub_step_of forms before change ≡ Some (Ok (after, words))
        → depth (tree_of_hub_change change) ≤ max_depth }
{}

/// A hub with one view is the session of that view's lens: each edit of it makes the step of the entry of that side,
/// and each group the steps of the group, with the same words and the same refusals.
pub fn one_view_is_a_session()
    ensures edit { (form : FormTree) (triple : TripleTree) (entry : Side × WordTree)
        → IsSessionStep form triple entry }
    ensures group { (form : FormTree) (triple : TripleTree) (entries : List (Side × WordTree))
        → IsSessionGroup form triple entries }
{}
