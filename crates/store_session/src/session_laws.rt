//! Laws of sessions over a store. Each function here does nothing: its clauses are the laws.

ghost use Rattle.std.specs.Prelude.{◌≡◌, ℕ, List, true, Some, Ok};
ghost use Rattle.std.specs.declared.option.Option.{Option};
ghost use Rattle.edit_journal.specs.declared.line.Line.{Line};
ghost use Rattle.lens_forms.specs.Typing.{is_typed};
ghost use Rattle.store_run.specs.OkLines.{IsAnswer};
ghost use Rattle.store_run.specs.StoreRuns.{run_in_store};
ghost use Rattle.store_run.specs.declared.session.StoredAnswer.{StoredAnswer};
ghost use Rattle.store_session.specs.Journals.{IsStateInStep, IsJournalRun};
ghost use Rattle.store_session.specs.StoredStates.{StoredState, stands_for, answer};

use crate::session::StoreSession;
use store_run::StoredSession;

/// What payloads stand for is in step, whatever their bytes are: the form of its lens is typed, and its triple is
/// consistent. So a store of any bytes is refused, or it stands for a consistent triple.
pub fn stored_is_in_step()
    ensures typed { (payloads : List (List ℕ)) (state : StoredState) (version : Option (List ℕ))
        → stands_for payloads ≡ Ok (state, version) → is_typed state.form ≡ true }
    ensures in_step { (payloads : List (List ℕ)) (state : StoredState) (version : Option (List ℕ))
        → stands_for payloads ≡ Ok (state, version) → IsStateInStep state }
{}

/// From a state that is in step every journal is answered to its end, and its run is that of the journal's items: the
/// answer lines and the last triple are the same, every triple is consistent, and the payloads are those of the
/// accepted changes, in order.
pub fn answers_are_the_run()
    ensures ends { (state : StoredState) (number : ℕ) (lines : List Line)
        → is_typed state.form ≡ true → IsStateInStep state
        → (steps : List (StoredState × StoredAnswer))
        × (run_in_store ⟦<StoreSession as StoredSession>⟧ state number lines ≡ Some steps) }
    ensures same { (state : StoredState) (number : ℕ) (lines : List Line) (steps : List (StoredState × StoredAnswer))
        → is_typed state.form ≡ true → IsStateInStep state
        → run_in_store ⟦<StoreSession as StoredSession>⟧ state number lines ≡ Some steps
        → IsJournalRun state number lines steps }
{}

/// Every answer is one line, which begins with `ok ` if and only if there is a payload.
pub fn answers_are_lines()
    ensures { (before after : StoredState) (number : ℕ) (line : Line) (made : StoredAnswer)
        → answer before number line ≡ Some (after, made) → IsAnswer made }
{}
