//! The answer to an item, with the payload of a change that was accepted.

ghost use Rattle.std.specs.Prelude.{◌≡◌, ◌≢◌, ◌≤◌, true, List, Some, None, Ok, IfOk, IfSome};
ghost use Rattle.serde_json.specs.Data.{depth};
ghost use Rattle.serde_json.specs.Read.{max_depth};
ghost use Rattle.doc_values.specs.Types.{height};
ghost use Rattle.edit_module.specs.Changes.{one, group};
ghost use Rattle.texts.specs.declared.side.Side.{Side};
ghost use Rattle.edit_module.specs.Views.{change_tree, entry_tree};
ghost use Rattle.edit_module.specs.Words.{WordTree};
ghost use Rattle.edit_journal.specs.EntryJson.{change_counts_fit};
ghost use Rattle.edit_journal.specs.Reading.{cause_of, IsRefused};
ghost use Rattle.edit_journal.specs.declared.fault.EntryFault;
ghost use Rattle.edit_session.specs.Step.{TripleTree};
ghost use Rattle.run_answers.specs.ItemRuns.{JournalItem};
ghost use Rattle.lens_forms.specs.Forms.{FormTree, form_tree, left_type, right_type};
ghost use Rattle.lens_forms.specs.declared.limits.TheConstants.{GREATEST_HEIGHT};
ghost use Rattle.store_records.specs.RecordJson.{tree_of_change_record};
ghost use Rattle.store_run.specs.OkLines.{IsAnswer};
ghost use Rattle.store_session.specs.StoredStates.{answer, answer_item, change_text, state_with, ReadsAsChange, IsStep};
ghost use Rattle.store_session.specs.SessionStates.{session_state};

use answer_text::{fault_line, group_line, group_refused_line, no_apply_line, ok_line};
use edit_journal::{EntryFault, Line};
use edit_module::{Change, Entry};
use edit_session::{GroupFault, Session, StepFault};
use edit_tokens::read_line;
use json::Scratch;
use lens_flat::Flat;
use std::alloc::{AllocError, Global};
use store_records::change_payload;
use store_run::StoredAnswer;
use texts::Bytes;

// Answers the item with this number, which steps the session if it is a change that is accepted. The line is read once.
// The scratch may hold anything.
pub(crate) fn answer_item(
    alloc: Global,
    session: &mut Session<Flat>,
    number: u64,
    line: &Line,
    scratch: &mut Scratch,
) -> Result<StoredAnswer, AllocError>
    ensures answer { IfOk result (λ a.
        answer (session_state session.old) number line.now ≡ Some (session_state session.new, a)) }
    ensures step { IfOk result (λ a.
        IsStep (session_state session.old) number line.now (session_state session.new, a)) }
    ensures is_answer { IfOk result IsAnswer }
{
    match read_line(alloc, line, scratch) {
        Ok(Change::One(entry)) => answer_entry(alloc, session, number, entry),
        Ok(group) => answer_group(alloc, session, number, &group),
        Err(EntryFault::NoMemory) => Err(AllocError),
        Err(fault) => answer_fault(alloc, number, fault),
    }
}

// Answers a line that is not a change, for this fault.
fn answer_fault(alloc: Global, number: u64, fault: EntryFault) -> Result<StoredAnswer, AllocError>
    requires of_the_line { fault ≢ EntryFault.NoMemory }
    ensures answer { IfOk result (λ a. (form : FormTree) (triple : TripleTree) (item : JournalItem)
        → IsRefused (cause_of fault) item
        → answer_item (state_with form triple) number item ≡ Some (state_with form triple, a)) }
    ensures none { IfOk result (λ a. a.payload ≡ None) }
{
    let line = fault_line(alloc, number, &fault)?;
    Ok(refused(line))
}

// Answers an entry.
fn answer_entry(
    alloc: Global,
    session: &mut Session<Flat>,
    number: u64,
    entry: Entry,
) -> Result<StoredAnswer, AllocError>
    requires counts_fit { change_counts_fit (one (entry_tree entry)) ≡ true }
    ensures answer { IfOk result (λ a. answer_item (session_state session.old) number (Ok (one (entry_tree entry)))
        ≡ Some (session_state session.new, a)) }
    ensures reads { IfOk result (λ a. IfSome a.payload (ReadsAsChange (Ok (one (entry_tree entry))))) }
{
    types_are_low(session.lens());
    match session.step(&entry) {
        Ok(word) => {
            let line = ok_line(alloc, number, entry.side.other(), &word)?;
            accepted(alloc, line, &Change::One(entry))
        }
        Err(StepFault::NoApply { at, cause }) => {
            Ok(refused(no_apply_line(alloc, number, at, cause)?))
        }
        Err(StepFault::NoMemory) => Err(AllocError),
    }
}

// Answers a group.
fn answer_group(
    alloc: Global,
    session: &mut Session<Flat>,
    number: u64,
    change: &Change,
) -> Result<StoredAnswer, AllocError>
    requires is_group { (es : List (Side × WordTree)) × (change_tree change.now ≡ group es) }
    requires counts_fit { change_counts_fit (change_tree change.now) ≡ true }
    ensures answer { IfOk result (λ a. answer_item (session_state session.old) number (Ok (change_tree change.now))
        ≡ Some (session_state session.new, a)) }
    ensures reads { IfOk result (λ a. IfSome a.payload (ReadsAsChange (Ok (change_tree change.now)))) }
{
    types_are_low(session.lens());
    let Change::Group(entries) = change else {
        unreachable!()
    };
    match session.step_all(change) {
        Ok(words) => {
            let line = group_line(alloc, number, entries, &words)?;
            accepted(alloc, line, change)
        }
        Err(GroupFault::NoApply { part, at, cause }) => {
            Ok(refused(group_refused_line(alloc, number, part, at, cause)?))
        }
        Err(GroupFault::NoMemory) => Err(AllocError),
    }
}

// The types of a lens are no higher than the reader of JSON reads back the changes of.
fn types_are_low(lens: &Flat)
    ensures left { height (left_type (form_tree lens.now.typed)) ≤ GREATEST_HEIGHT }
    ensures right { height (right_type (form_tree lens.now.typed)) ≤ GREATEST_HEIGHT }
{
    let (_left, _right) = (lens.typed().left(), lens.typed().right());
}

// The answer of this line to a change that was accepted.
fn accepted(alloc: Global, line: Bytes, change: &Change) -> Result<StoredAnswer, AllocError>
    requires counts_fit { change_counts_fit (change_tree change.now) ≡ true }
    ensures line { IfOk result (λ a. a.line ≡ line) }
    ensures payload { IfOk result (λ a. a.payload ≡ Some (change_text (change_tree change.now))) }
    ensures reads { IfOk result (λ a. depth (tree_of_change_record (change_tree change.now)) ≤ max_depth
        → IfSome a.payload (ReadsAsChange (Ok (change_tree change.now)))) }
{
    let payload = change_payload(alloc, change)?;
    Ok(StoredAnswer {
        line,
        payload: Some(payload),
    })
}

// The answer of this line to an item that was refused.
fn refused(line: Bytes) -> StoredAnswer
    ensures line { result.line ≡ line }
    ensures payload { result.payload ≡ None }
{
    StoredAnswer {
        line,
        payload: None,
    }
}
