//! The texts of the last change: its payload, and the words that take the documents back over it.
ghost use Rattle.std.specs.Option.{ForSome};
ghost use Rattle.std.specs.Prelude.{◌≡◌, ◌≤◌, true, IfOk, MatchOption};
ghost use Rattle.doc_values.specs.Types.{height};
ghost use Rattle.edit_journal.specs.EntryJson.{change_counts_fit};
ghost use Rattle.edit_module.specs.Views.{change_tree};
ghost use Rattle.edit_json.specs.WordJson.{tree_of_word};
ghost use Rattle.edit_session.specs.Views.{triple_tree};
ghost use Rattle.lens_forms.specs.Forms.{FormTree, form_tree, left_type, right_type};
ghost use Rattle.lens_forms.specs.declared.limits.TheConstants.{GREATEST_HEIGHT};
ghost use Rattle.serde_json.specs.Written.{compact_text};
ghost use Rattle.edit_undo.specs.UndoneViews.{both_tree};
ghost use Rattle.embed_session.specs.Changes.{IsNoneMade, IsMade, IsChangeText, HasChangeText, IsUndoText, HasUndoText};
ghost use Rattle.embed_session.specs.Changes.{HasWayBack, word_on};
ghost use Rattle.embed_session.specs.Steps.{session_form};

use crate::accepted::Accepted;
use crate::shared::SharedLens;
use crate::stepping::copy;
use edit_json::append_word;
use edit_module::Change;
use edit_session::Session;
use edit_undo::{BothWords, undo_changes};
use lens_types::Typed;
use std::alloc::{AllocError, Global};
use std::slice;
use store_records::change_payload;
use texts::Side;

// The payload of the last change. None if and only if there is none.
pub(crate) fn change_text(
    alloc: Global,
    typed: &Typed,
    last: &Option<Accepted>,
) -> Result<Option<Vec<u8>>, AllocError>
    ensures { IfOk result (λ found. MatchOption found
        (IsNoneMade (form_tree typed.now) last.now)
        (λ text. HasChangeText (form_tree typed.now) last.now text.items)) }
{
    match last {
        Some(accepted) => Ok(Some(payload_text(alloc, typed, accepted)?)),
        None => Ok(None),
    }
}

// The payload of a change that was accepted.
fn payload_text(alloc: Global, typed: &Typed, accepted: &Accepted) -> Result<Vec<u8>, AllocError>
    ensures { IfOk result
        (λ text. IsChangeText (form_tree typed.now) (change_tree accepted.now.change) text.items) }
{
    types_are_low(typed);
    let payload = change_payload(alloc, &accepted.change)?;
    Ok(payload.into_vec())
}

// The types of a lens are low enough that the reader of JSON reads back the changes that it accepts.
fn types_are_low(typed: &Typed)
    ensures left { height (left_type (form_tree typed.now)) ≤ GREATEST_HEIGHT }
    ensures right { height (right_type (form_tree typed.now)) ≤ GREATEST_HEIGHT }
{
    let (_left, _right) = (typed.left(), typed.right());
}

// The word that takes the document of a side of a session back over the last change. None if and only if there is none.
pub(crate) fn undo_text(
    alloc: Global,
    session: &Session<SharedLens>,
    last: &Option<Accepted>,
    side: Side,
) -> Result<Option<Vec<u8>>, AllocError>
    requires one_lens { ForSome last.now (λ accepted. accepted.before.lens ≡ session.now.lens) }
    ensures { IfOk result (λ found. MatchOption found
        (IsNoneMade (session_form session.now) last.now)
        (λ text. HasUndoText (session_form session.now) last.now side text.items)) }
{
    match last {
        Some(accepted) => accepted_text(alloc, accepted, side),
        None => Ok(None),
    }
}

fn accepted_text(
    alloc: Global,
    accepted: &Accepted,
    side: Side,
) -> Result<Option<Vec<u8>>, AllocError>
    ensures { IfOk result (λ found. MatchOption found
        (IsMade (session_form accepted.now.before) accepted.now → ⊥)
        (λ text. IsUndoText (session_form accepted.now.before) accepted.now side text.items)) }
{
    match words_back(alloc, accepted)? {
        Some(words) => Ok(Some(word_text(alloc, &words, side)?)),
        None => Ok(None),
    }
}

// The words that take the documents back over a change. None if and only if it is refused.
fn words_back(alloc: Global, accepted: &Accepted) -> Result<Option<BothWords>, AllocError>
    ensures { HasWayBack result (session_form accepted.now.before) (triple_tree accepted.now.before.triple)
        (change_tree accepted.now.change) }
{
    let mut session = copy(alloc, &accepted.before)?;
    undo_changes(alloc, &mut session, slice::from_ref(&accepted.change))
}

// The text of the word of a side.
fn word_text(alloc: Global, words: &BothWords, side: Side) -> Result<Vec<u8>, AllocError>
    ensures { IfOk result (λ text. text.items ≡ compact_text (tree_of_word (word_on side (both_tree words.now)))) }
{
    match side {
        Side::Left => append_word(Vec::new(alloc), &words.left),
        Side::Right => append_word(Vec::new(alloc), &words.right),
    }
}
