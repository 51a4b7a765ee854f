//! The words of entries that a session is stepped through.

ghost use Rattle.std.specs.Prelude.{◌≡◌, true, IfOk, IsTrue, option_map};
ghost use Rattle.doc_values.specs.Documents.{doc_tree};
ghost use Rattle.doc_values.specs.Types.{ty_tree, is_well_formed};
ghost use Rattle.doc_values.specs.Typing.{has};
ghost use Rattle.edit_module.specs.Views.{word_tree, entry_tree, entry_trees};
ghost use Rattle.edit_session.specs.Step.{document_on, step};
ghost use Rattle.edit_session.specs.Views.{triple_tree};
ghost use Rattle.lens_core.specs.Sides.{near};
ghost use Rattle.edit_undo.specs.Stepping.{IsBack, IsStep, UndoesEntry, Stepping};
ghost use Rattle.edit_undo.specs.Undone.{entries_of_all};
ghost use Rattle.edit_undo.specs.UndoneViews.{both_tree, both_trees, change_trees};

use crate::both::BothWords;
use doc_values::{Doc, Ty};
use edit_inverse::{InverseFault, inverse};
use edit_module::{Change, Entry, Word};
use edit_session::{Session, StepFault};
use lens_core::EditLens;
use std::alloc::{AllocError, Global};
use texts::{Side, Twin};

// The word that takes a document back over a word. None if and only if that word does not act on it.
fn word_back(alloc: Global, ty: &Ty, word: &Word, doc: &Doc) -> Result<Option<Word>, AllocError>
    requires well_formed { is_well_formed (ty_tree ty.now) ≡ true }
    requires typed { has (ty_tree ty.now) (doc_tree doc.now) ≡ true }
    ensures { IfOk result (IsBack (ty_tree ty.now) (word_tree word.now) (doc_tree doc.now)) }
{
    match inverse(alloc, ty, word, doc) {
        Ok(back) => Ok(Some(back)),
        Err(InverseFault::NoApply { .. }) => Ok(None),
        Err(InverseFault::NoMemory) => Err(AllocError),
    }
}

// The document of a side.
fn document<L: EditLens>(session: &Session<L>, side: Side) -> &Doc
    ensures is { doc_tree result.now ≡ document_on side (triple_tree session.now.triple) }
    ensures typed { IsTrue (has (near side (L.left_type session.now.lens) (L.right_type session.now.lens))
        (doc_tree result.now)) }
{
    match side {
        Side::Left => session.left(),
        Side::Right => session.right(),
    }
}

// The word that takes the document of a side back over a word. None if and only if that word does not act on it.
fn side_back<L: EditLens>(
    alloc: Global,
    session: &Session<L>,
    side: Side,
    word: &Word,
) -> Result<Option<Word>, AllocError>
    ensures { IfOk result (IsBack (near side (L.left_type session.now.lens) (L.right_type session.now.lens))
        (word_tree word.now) (document_on side (triple_tree session.now.triple))) }
{
    word_back(
        alloc,
        session.lens().ty(side),
        word,
        document(session, side),
    )
}

// Steps by an entry, and returns the carried word. None if and only if the entry is refused.
fn take_step<L: EditLens>(
    session: &mut Session<L>,
    entry: &Entry,
) -> Result<Option<Word>, AllocError>
    ensures step { IfOk result (IsStep (step (L.left_type session.old.lens) (L.right_type session.old.lens)
        (L.carried session.old.lens) (triple_tree session.old.triple) (entry_tree entry.now))
        (triple_tree session.new.triple)) }
    ensures lens { session.new.lens ≡ session.old.lens }
{
    match session.step(entry) {
        Ok(word) => Ok(Some(word)),
        Err(StepFault::NoApply { .. }) => Ok(None),
        Err(StepFault::NoMemory) => Err(AllocError),
    }
}

// Steps by an entry. It returns the inverse of its word on its side, and that of the carried word on the other side.
fn undo_entry<L: EditLens>(
    alloc: Global,
    session: &mut Session<L>,
    entry: &Entry,
) -> Result<Option<BothWords>, AllocError>
    ensures words { IfOk result (λ words.
        UndoesEntry (L.left_type session.old.lens) (L.right_type session.old.lens) (L.carried session.old.lens)
        (triple_tree session.old.triple) (entry_tree entry.now) (triple_tree session.new.triple)
        (option_map both_tree words)) }
    ensures lens { session.new.lens ≡ session.old.lens }
{
    let (side, far) = (entry.side, entry.side.other());
    let Some(own_back) = side_back(alloc, session, side, &entry.word)? else {
        return Ok(None);
    };
    let far_doc = document(session, far).twin(alloc)?;
    let Some(carried) = take_step(session, entry)? else {
        return Ok(None);
    };
    let ty = session.lens().ty(far);
    let Some(far_back) = word_back(alloc, ty, &carried, &far_doc)? else {
        unreachable!()
    };
    Ok(Some(BothWords::on_sides(side, own_back, far_back)))
}

// Steps by entries, and adds the words of each step to the parts. False if and only if an entry is refused.
fn undo_entries<L: EditLens>(
    alloc: Global,
    session: &mut Session<L>,
    entries: &[Entry],
    parts: &mut Vec<BothWords>,
) -> Result<bool, AllocError>
    ensures words { IfOk result (λ all.
        Stepping (L.left_type session.old.lens) (L.right_type session.old.lens) (L.carried session.old.lens)
        all (triple_tree session.old.triple) (entry_trees entries.now)
        (both_trees parts.old.items) (both_trees parts.new.items) (triple_tree session.new.triple)) }
    ensures lens { session.new.lens ≡ session.old.lens }
{
    for i in 0..entries.len() {
        let Some(words) = undo_entry(alloc, session, &entries[i])? else {
            return Ok(false);
        };
        parts.push(words)?;
    }
    Ok(true)
}

// Steps by changes, and adds the words of each entry to the parts. False if and only if an entry is refused.
pub(crate) fn undo_each<L: EditLens>(
    alloc: Global,
    session: &mut Session<L>,
    changes: &[Change],
    parts: &mut Vec<BothWords>,
) -> Result<bool, AllocError>
    ensures words { IfOk result (λ all.
        Stepping (L.left_type session.old.lens) (L.right_type session.old.lens) (L.carried session.old.lens)
        all (triple_tree session.old.triple) (entries_of_all (change_trees changes.now))
        (both_trees parts.old.items) (both_trees parts.new.items) (triple_tree session.new.triple)) }
    ensures lens { session.new.lens ≡ session.old.lens }
{
    for i in 0..changes.len() {
        if !undo_entries(alloc, session, changes[i].entries(), parts)? {
            return Ok(false);
        }
    }
    Ok(true)
}
