//! The words that take a session back over changes.

ghost use Rattle.std.specs.Prelude.{◌≡◌, IfOk, IfSome, option_map};
ghost use Rattle.edit_session.specs.Views.{triple_tree};
ghost use Rattle.edit_undo.specs.Undone.{undone, BringsBack};
ghost use Rattle.edit_undo.specs.UndoneViews.{both_tree, change_trees};

use crate::both::{BothWords, join_all};
use crate::stepping::undo_each;
use edit_module::Change;
use edit_session::Session;
use lens_core::EditLens;
use std::alloc::{AllocError, Global};

/// Steps a session through changes, and returns words that take both documents back to what they were.
///
/// Each word joins, from the last change to the first and in a group from the last entry to the first, the inverses of
/// the words that acted on its side: on the entry's own side its word, on the other side the carried word. It acts on
/// the document that its side has then, and gives the one from before.
///
/// None if and only if an entry of the changes is refused. The session has then taken the steps before that entry. The
/// only error is running out of memory; the session is then in step, as at any time, and has taken some of the steps.
pub fn undo_changes<L: EditLens>(
    alloc: Global,
    session: &mut Session<L>,
    changes: &[Change],
) -> Result<Option<BothWords>, AllocError>
    ensures undone { IfOk result (λ words.
        option_map (λ w. (triple_tree session.new.triple, both_tree w)) words
        ≡ undone (L.left_type session.old.lens) (L.right_type session.old.lens) (L.carried session.old.lens)
        (triple_tree session.old.triple) (change_trees changes.now)) }
    ensures brings_back { IfOk result (λ words. IfSome words (λ w.
        BringsBack (L.left_type session.old.lens) (L.right_type session.old.lens) (both_tree w)
        (triple_tree session.new.triple) (triple_tree session.old.triple))) }
    ensures lens { session.new.lens ≡ session.old.lens }
{
    let mut parts = Vec::new(alloc);
    if !undo_each(alloc, session, changes, &mut parts)? {
        return Ok(None);
    }
    Ok(Some(join_all(alloc, parts)?))
}
