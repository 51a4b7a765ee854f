//! A line of a journal, over a session.
ghost use Rattle.std.specs.Prelude.{◌≡◌, List, Ok, IfOk, OnErr};
ghost use Rattle.edit_module.specs.Changes.{one, group};
ghost use Rattle.edit_module.specs.Views.{entry_tree, entry_trees};
ghost use Rattle.edit_module.specs.declared.change.Change.TheVariants.{Group};
ghost use Rattle.edit_module.specs.declared.entry.Entry.{Entry as EntryValue};
ghost use Rattle.edit_journal.specs.EntryJson.{change_of_line};
ghost use Rattle.edit_session.specs.Run.{take_change, take_item};
ghost use Rattle.edit_session.specs.Views.{triple_tree};
ghost use Rattle.run_answers.specs.AnswerLines.{HasAnswerLine};
ghost use Rattle.run_answers.specs.ItemViews.{step_with, IsOfItem};

use crate::answers::PairAnswer;
use edit_journal::{EntryFault, Line};
use edit_module::{Change, Entries, Entry};
use edit_session::{GroupFault, Session, StepFault};
use edit_tokens::read_line;
use json::Scratch;
use lens_core::EditLens;
use std::alloc::{AllocError, Global};

/// The answer to a line that is not blank, which steps the session by a change: an entry, or a group of entries.
///
/// An entry or a group that does not apply, and a line that is not a change, leave the session as it was. The only
/// error is running out of memory, which leaves it as it was too.
///
/// The scratch may hold anything. Room in it is kept, so a caller keeps one from line to line.
pub fn take_item<L: EditLens>(
    alloc: Global,
    session: &mut Session<L>,
    line: &Line,
    scratch: &mut Scratch,
) -> Result<PairAnswer, AllocError>
    ensures answer { IfOk result (λ answer. take_item (L.left_type session.old.lens)
        (L.right_type session.old.lens) (L.carried session.old.lens)
        (triple_tree session.old.triple) (change_of_line line.now)
        ≡ step_with (triple_tree session.new.triple) answer) }
    // The change in an answer is that of the line.
    ensures of_item { IfOk result (λ answer. IsOfItem (change_of_line line.now) answer) }
    ensures has_line { IfOk result (λ answer. HasAnswerLine answer) }
    ensures lens { session.new.lens ≡ session.old.lens }
    ensures unchanged { OnErr result (session.new ≡ session.old) }
{
    match read_line(alloc, line, scratch) {
        Ok(Change::One(entry)) => take_entry(session, entry),
        Ok(Change::Group(entries)) => take_group(session, entries),
        Err(EntryFault::NoMemory) => Err(AllocError),
        Err(fault) => Ok(PairAnswer::NoEntry(fault)),
    }
}

// The answer to an entry, which steps the session.
fn take_entry<L: EditLens>(session: &mut Session<L>, entry: Entry) -> Result<PairAnswer, AllocError>
    ensures answer { IfOk result (λ answer. take_change (L.left_type session.old.lens)
        (L.right_type session.old.lens) (L.carried session.old.lens)
        (triple_tree session.old.triple) (one (entry_tree entry))
        ≡ step_with (triple_tree session.new.triple) answer) }
    ensures of_item { IfOk result (λ answer. IsOfItem (Ok (one (entry_tree entry))) answer) }
    ensures has_line { IfOk result (λ answer. HasAnswerLine answer) }
    ensures lens { session.new.lens ≡ session.old.lens }
    ensures unchanged { OnErr result (session.new ≡ session.old) }
{
    match session.step(&entry) {
        Ok(word) => Ok(PairAnswer::Carried(entry, word)),
        Err(StepFault::NoApply { at, cause }) => Ok(PairAnswer::NoApply { at, cause }),
        Err(StepFault::NoMemory) => Err(AllocError),
    }
}

// The answer to a group of entries, which steps the session by all of them or by none.
fn take_group<L: EditLens>(
    session: &mut Session<L>,
    entries: Entries,
) -> Result<PairAnswer, AllocError>
    ensures answer { IfOk result (λ answer. take_change (L.left_type session.old.lens)
        (L.right_type session.old.lens) (L.carried session.old.lens)
        (triple_tree session.old.triple) (group (entry_trees entries))
        ≡ step_with (triple_tree session.new.triple) answer) }
    ensures of_item { IfOk result (λ answer. IsOfItem (Ok (group (entry_trees entries))) answer) }
    ensures has_line { IfOk result (λ answer. HasAnswerLine answer) }
    ensures lens { session.new.lens ≡ session.old.lens }
    ensures unchanged { OnErr result (session.new ≡ session.old) }
{
    let group = Change::Group(entries);
    match session.step_all(&group) {
        Ok(words) => Ok(PairAnswer::GroupCarried(group_entries(group), words)),
        Err(GroupFault::NoApply { part, at, cause }) => {
            Ok(PairAnswer::GroupNoApply { part, at, cause })
        }
        Err(GroupFault::NoMemory) => Err(AllocError),
    }
}

// The entries of a group.
fn group_entries(change: Change) -> Entries
    requires { (entries : List EntryValue) × (change ≡ Group entries) }
    ensures { change ≡ Group result }
{
    match change {
        Change::Group(entries) => entries,
        Change::One(_) => unreachable!(),
    }
}
