//! Laws of sessions that a caller keeps. Each function here does nothing: its clauses are the laws.
ghost use Rattle.std.specs.Prelude.{◌≡◌, ◌++◌, ◌∷◌, [], ℕ, List, Ok, Some, true};
ghost use Rattle.std.specs.List.{list_all};
ghost use Rattle.std.specs.declared.option.Option.{Option};
ghost use Rattle.program_accepted.specs.Program.{lens_of};
ghost use Rattle.edit_journal.specs.Pieces.{has_no_end, texts_of};
ghost use Rattle.edit_session.specs.Step.{TripleTree};
ghost use Rattle.edit_session.specs.Views.{triple_tree};
ghost use Rattle.run_answers.specs.ItemRuns.{IsInStepFor};
ghost use Rattle.lens_forms.specs.Forms.{FormTree, left_type, right_type};
ghost use Rattle.embed_session.specs.Changes.{IsMade, IsWordBack};
ghost use Rattle.embed_session.specs.Journals.{IsGiven, IsReported, IsSameState};
ghost use Rattle.embed_session.specs.Embedded.{IsOpened, IsFresh, IsResumed, IsReopened, IsShown, text_of};
ghost use Rattle.embed_session.specs.Logs.{IsLog, IsLogged, IsSameSession, log_text};
ghost use Rattle.embed_session.specs.Records.{IsFirstRecord, version_text};
ghost use Rattle.embed_session.specs.States.{IsPartText};
ghost use Rattle.embed_session.specs.Steps.{form_of, IsLineStep};
ghost use Rattle.embed_session.specs.declared.embedded.EmbeddedSession.{EmbeddedSession as EmbeddedValue};
ghost use Rattle.embed_session.specs.declared.embedded.EmbeddedSession.TheVariants.{Open};
ghost use Rattle.embed_session.specs.declared.outcome.Outcome.TheVariants.{Done};
ghost use Rattle.embed_session.specs.declared.outcome.Part.TheVariants.{State, Left, Complement, Right, Snapshot};
ghost use Rattle.embed_session.specs.declared.outcome.Part.TheVariants.{Change, UndoLeft, UndoRight};
ghost use Rattle.embed_session.specs.declared.accepted.Accepted.{Accepted as AcceptedValue};
ghost use Rattle.embed_session.specs.declared.running.Running.{Running as RunningValue};

/// A session that is opened, given the lines of a journal and then shown answers as a run: its texts, one after
/// another, are all that the run of the program writes for these lines.
#[tactic(auto, using(crate::proofs::GivenLines::is_reported))]
pub fn sessions_answer_as_a_run()
    ensures { (program : List ℕ) (lines : List (List ℕ)) (texts : List ℕ) (first last shown : EmbeddedValue)
        → IsOpened program first → IsGiven first lines texts last → IsShown last State Done shown
        → IsReported program lines (texts ++ text_of shown) }
{}

/// What is resumed from the texts that a session showed is at the same lens, documents and complement, unless memory
/// ran out.
#[tactic(auto, using(crate::proofs::SameStates::is_same_state))]
pub fn shown_states_are_resumed()
    ensures { (program left comp right : List ℕ) (form : FormTree) (triple : TripleTree)
        (last : Option AcceptedValue) (resumed : EmbeddedValue)
        → lens_of program ≡ Ok form → IsInStepFor form triple
        → IsPartText form triple last Left left → IsPartText form triple last Complement comp
        → IsPartText form triple last Right right
        → IsResumed program left comp right resumed → IsSameState form triple resumed }
{}

/// A log that a caller keeps of a session is reopened as that session, unless memory ran out: the record from opening
/// it, and behind it the record of each change that was accepted, with an LF behind each. Lines may have been refused,
/// and memory may have run out in between.
pub fn logs_are_reopened()
    ensures { (program : List ℕ) (lines records : List (List ℕ)) (first : RunningValue) (last reopened : EmbeddedValue)
        → IsOpened program (Open first) → IsLogged (Open first) lines records last
        → IsReopened (texts_of (log_text (first.text.items ∷ records))) reopened
        → IsSameSession last reopened }
{}

/// No record that this library makes has an LF in it. So the text of a log is cut into its records.
///
/// - `first`: the record from opening a session over a program.
/// - `change`, `snapshot`: the records that are shown.
/// - `version`: the record from reopening the log of an old store.
/// - `cut`: the text of records without an LF in them is cut into these records.
pub fn records_are_cut()
    ensures first { (program text : List ℕ) → IsFirstRecord program text → has_no_end text ≡ true }
    ensures change { (form : FormTree) (triple : TripleTree) (last : Option AcceptedValue) (text : List ℕ)
        → IsPartText form triple last Change text → has_no_end text ≡ true }
    ensures snapshot { (form : FormTree) (triple : TripleTree) (last : Option AcceptedValue) (text : List ℕ)
        → IsPartText form triple last Snapshot text → has_no_end text ≡ true }
    ensures version { (version : ℕ) → has_no_end (version_text version) ≡ true }
    ensures cut { (records : List (List ℕ)) → list_all has_no_end records ≡ true
        → texts_of (log_text records) ≡ records }
{}

/// The records of a log stand for its session, one after another.
///
/// - `opened`: the record from opening a session at its first documents.
/// - `snapshot`: the record from opening any other session over a program, and a snapshot.
/// - `change`: one more change that was accepted.
/// - `one_more_snapshot`: one more snapshot, at any time.
/// - `reopened`: what is reopened from a log is its session, and the log goes on.
pub fn records_stand()
    ensures opened { (program : List ℕ) (r : RunningValue) → IsOpened program (Open r)
        → IsLog (r.text.items ∷ []) r }
    ensures snapshot { (program text : List ℕ) (last : Option AcceptedValue) (r : RunningValue)
        → IsFresh program r → IsPartText (form_of r) (triple_tree r.session.triple) last Snapshot text
        → IsLog (r.text.items ∷ text ∷ []) r }
    ensures change { (records : List (List ℕ)) (line text : List ℕ) (before after : RunningValue)
        → IsLog records before → IsLineStep before line Done after
        → IsPartText (form_of after) (triple_tree after.session.triple) after.accepted Change text
        → IsLog (records ++ text ∷ []) after }
    ensures one_more_snapshot { (records : List (List ℕ)) (text : List ℕ) (last : Option AcceptedValue)
        (r : RunningValue)
        → IsLog records r → IsPartText (form_of r) (triple_tree r.session.triple) last Snapshot text
        → IsLog (records ++ text ∷ []) r }
    ensures reopened { (records : List (List ℕ)) (r : RunningValue) (reopened : EmbeddedValue) → IsLog records r
        → IsReopened records reopened → IsSameState (form_of r) (triple_tree r.session.triple) reopened }
    ensures goes_on { (records : List (List ℕ)) (r again : RunningValue) → IsLog records r
        → IsReopened records (Open again) → IsLog records again }
{}

/// The words that are shown of the last change take the documents of the session back to what they were before its
/// line.
pub fn words_take_back()
    ensures left { (line text : List ℕ) (before after : RunningValue) → IsLineStep before line Done after
        → IsPartText (form_of after) (triple_tree after.session.triple) after.accepted UndoLeft text
        → IsWordBack (left_type (form_of after)) (triple_tree after.session.triple).left
        (triple_tree before.session.triple).left text }
    ensures right { (line text : List ℕ) (before after : RunningValue) → IsLineStep before line Done after
        → IsPartText (form_of after) (triple_tree after.session.triple) after.accepted UndoRight text
        → IsWordBack (right_type (form_of after)) (triple_tree after.session.triple).right
        (triple_tree before.session.triple).right text }
{}

/// What is remembered of a line that was accepted is its change, which the lens accepts. So its parts are shown, unless
/// memory runs out.
pub fn accepted_is_made()
    ensures { (line : List ℕ) (before after : RunningValue) (remembered : AcceptedValue)
        → IsLineStep before line Done after → after.accepted ≡ Some remembered → IsMade (form_of after) remembered }
{}
