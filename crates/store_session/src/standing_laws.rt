//! Laws of what payloads stand for. Each function here does nothing: its clauses are the laws.
//!
//! They are what the commands on stores rely on: what this program writes stands.

ghost use Rattle.std.specs.Prelude.{◌≡◌, ◌≤◌, ◌+◌, ◌++◌, ◌∷◌, [], ℕ, List, Some, Ok, true, length, map};
ghost use Rattle.serde_json.specs.Data.{depth};
ghost use Rattle.serde_json.specs.Read.{max_depth};
ghost use Rattle.doc_values.specs.Types.{height};
ghost use Rattle.edit_module.specs.Changes.{ChangeTree};
ghost use Rattle.edit_module.specs.Words.{WordTree};
ghost use Rattle.edit_journal.specs.EntryJson.{tree_of_text};
ghost use Rattle.edit_session.specs.Step.{TripleTree};
ghost use Rattle.lens_forms.specs.Forms.{FormTree, left_type, right_type};
ghost use Rattle.lens_forms.specs.Typing.{is_typed};
ghost use Rattle.lens_forms.specs.declared.limits.TheConstants.{GREATEST_HEIGHT};
ghost use Rattle.lens_core.specs.Consistency.{IsConsistent};
ghost use Rattle.doc_values.specs.Documents.{DocTree};
ghost use Rattle.lens_core.specs.Complements.{CompTree};
ghost use Rattle.program_terms.specs.Terms.{ProgramTree};
ghost use Rattle.program_writing.specs.Canonical.{canonical};
ghost use Rattle.lens_syntax.specs.Programs.{unbounded};
ghost use Rattle.program_accepted.specs.Program.{form_of_program};
ghost use Rattle.store_records.specs.RecordJson.{record_in, tree_of_first_program, tree_of_program};
ghost use Rattle.store_records.specs.RecordJson.{tree_of_change_record};
ghost use Rattle.store_session.specs.ConsistencyTest.{is_consistent};
ghost use Rattle.store_session.specs.Stands.{Standing, at_start, after_record, stands, step_of};
ghost use Rattle.store_session.specs.Written.{WrittenRecord, ReadsAs, StandsAfter, AreWritten, SnapshotsKeep};
ghost use Rattle.store_session.specs.Written.{changes_written, RunsTo};

/// The test of consistency is true if and only if the three are consistent.
pub fn test_is_consistency()
    ensures consistent { (form : FormTree) (left : DocTree) (comp : CompTree) (right : DocTree) → is_typed form ≡ true
        → is_consistent form left comp right ≡ true → IsConsistent form left comp right }
    ensures tested { (form : FormTree) (left : DocTree) (comp : CompTree) (right : DocTree) → is_typed form ≡ true
        → IsConsistent form left comp right → is_consistent form left comp right ≡ true }
{}

/// One more record goes on from what stands before it.
pub fn one_more_record()
    ensures { (payloads : List (List ℕ)) (payload : List ℕ) (before : Standing) → stands payloads ≡ Ok before
        → stands (payloads ++ payload ∷ []) ≡ after_record (length payloads + 1) before (record_in payload) }
{}

/// A store that this program began stands: its program alone represents the initial triple, with no changes, at version
/// 2. So does one of version 1, which has the program and nothing else in its first record.
pub fn program_stands()
    ensures current { (text : List ℕ) (program : ProgramTree) (form : FormTree) (payload : List ℕ) → unbounded text
        ≡ Ok program
        → form_of_program (Ok program) ≡ Ok form
        → tree_of_text payload ≡ Some (tree_of_program (canonical program))
        → stands (payload ∷ []) ≡ Ok (at_start (form, 2)) }
    ensures first { (text : List ℕ) (program : ProgramTree) (form : FormTree) (payload : List ℕ) → unbounded text
        ≡ Ok program
        → form_of_program (Ok program) ≡ Ok form
        → tree_of_text payload ≡ Some (tree_of_first_program (canonical program))
        → stands (payload ∷ []) ≡ Ok (at_start (form, 1)) }
{}

/// What this program writes behind that stands, too: the version, a change that is accepted, and a consistent snapshot.
pub fn written_records_stand()
    ensures one { (payloads : List (List ℕ)) (payload : List ℕ) (written : WrittenRecord) (before after : Standing)
        → is_typed before.form ≡ true → stands payloads ≡ Ok before
        → ReadsAs before.form (payload, written) → StandsAfter before written after
        → stands (payloads ++ payload ∷ []) ≡ Ok after }
    ensures all { (payloads : List (List ℕ)) (written : List (List ℕ × WrittenRecord)) (before after : Standing)
        → is_typed before.form ≡ true → stands payloads ≡ Ok before
        → AreWritten before written after
        → stands (payloads ++ map (λ w. w.0) written) ≡ Ok after }
{}

/// The tree of a change that is accepted does not nest too deep for the reader of JSON, so its payload is read back.
pub fn accepted_changes_are_shallow()
    ensures { (form : FormTree) (triple after : TripleTree) (change : ChangeTree) (words : List WordTree)
        → height (left_type form) ≤ GREATEST_HEIGHT → height (right_type form) ≤ GREATEST_HEIGHT
        → step_of form triple change ≡ Some (Ok (after, words))
        → depth (tree_of_change_record change) ≤ max_depth }
{}

/// What this program writes stands for its run: where each snapshot is of the triple that stands when it is written,
/// the records end at the last triple of the run over their changes, and count them. `F` is the type of what may be
/// wrong with a line.
pub fn written_records_are_a_run<F>()
    ensures triple { (written : List (List ℕ × WrittenRecord)) (before after : Standing)
        → AreWritten before written after → SnapshotsKeep before written
        → RunsTo F before.form before.triple (changes_written written) after.triple }
    ensures count { (written : List (List ℕ × WrittenRecord)) (before after : Standing)
        → AreWritten before written after
        → after.count ≡ before.count + length (changes_written written) }
{}
