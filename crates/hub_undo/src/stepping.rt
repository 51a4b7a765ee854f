//! The words that take a hub back over edits.

ghost use Rattle.std.specs.Prelude.{◌≡◌, ◌<◌, true, length, List, IfOk, IfSome, Ok, option_map};
ghost use Rattle.doc_values.specs.Documents.{DocTree, doc_tree};
ghost use Rattle.doc_values.specs.Types.{ty_tree, is_well_formed};
ghost use Rattle.doc_values.specs.Typing.{has};
ghost use Rattle.edit_inverse.specs.Inverse.{inverse};
ghost use Rattle.edit_inverse.specs.Laws.{TakesBack};
ghost use Rattle.edit_module.specs.Action.{act};
ghost use Rattle.edit_module.specs.Views.{word_tree, word_trees};
ghost use Rattle.view_hub.specs.Acting.{ActsTo, ViewsActTo};
ghost use Rattle.view_hub.specs.Hubs.{HubTree, ViewTree};
ghost use Rattle.view_hub.specs.Views.{hub_carried_tree, edit_tree, edit_trees, hub_tree, view_trees};
ghost use Rattle.hub_undo.specs.HubUndoing.{edits_of_all};
ghost use Rattle.hub_undo.specs.UndoMaking.{change_trees};
ghost use Rattle.hub_undo.specs.HubUndone.{HubBringsBack, BringViewsBack, hub_undone, undone_step, undone_views};
ghost use Rattle.hub_undo.specs.UndoSteps.{Stepping, UndoesEdit};
ghost use Rattle.hub_undo.specs.UndoViews.{carried_trees};

use crate::joining::join_all;
use doc_values::{Doc, Ty};
use edit_inverse::{InverseFault, inverse};
use edit_module::Word;
use edit_module::change::Words;
use hub_records::HubChange;
use lens_core::EditLens;
use std::alloc::{AllocError, Global};
use std::rc::Rc;
use texts::Side;
use view_hub::{Hub, HubCarried, HubFault, HubParts, HubSide, View, copy_parts};

/// Steps a hub through changes, and returns words that take its document and that of each view back to what they were.
///
/// Each word joins, from the last change to the first and in a group from the last edit to the first, the inverses of
/// the words that acted on its document. It acts on the document that there is then, and gives the one from before.
///
/// None if and only if an edit is refused. The only error is running out of memory. Of the hub no more is said then than
/// that it has the same lenses and is in step, as at any time.
pub fn undo_changes<L: EditLens>(
    alloc: Global,
    hub: &mut Hub<L>,
    changes: &[HubChange],
) -> Result<Option<HubCarried>, AllocError>
    ensures undone { IfOk result (λ words.
        option_map (λ w. (hub_tree hub.new.parts, hub_carried_tree w)) words
        ≡ hub_undone L.EditLens hub.old.lenses (hub_tree hub.old.parts)
        (edits_of_all (change_trees changes.now))) }
    ensures brings_back { IfOk result (λ words. IfSome words (λ w.
        HubBringsBack L.EditLens hub.old.lenses (hub_carried_tree w) (hub_tree hub.new.parts) (hub_tree hub.old.parts))) }
    ensures lenses { hub.new.lenses ≡ hub.old.lenses }
{
    // The proof needs that the hub is in step, which this call says.
    let _hub = hub.hub();
    let mut parts = Vec::new(alloc);
    if !undo_each(alloc, hub, changes, &mut parts)? {
        return Ok(None);
    }
    let words = join_all(alloc, hub.lenses().len(), parts)?;
    Ok(Some(words))
}

// Steps by changes, and adds the words of each edit to the parts. False if and only if an edit is refused.
fn undo_each<L: EditLens>(
    alloc: Global,
    hub: &mut Hub<L>,
    changes: &[HubChange],
    parts: &mut Vec<HubCarried>,
) -> Result<bool, AllocError>
    ensures words { IfOk result (λ all. Stepping L.EditLens hub.old.lenses all (hub_tree hub.old.parts)
        (edits_of_all (change_trees changes.now)) (carried_trees parts.old.items) (carried_trees parts.new.items)
        (hub_tree hub.new.parts)) }
    ensures lenses { hub.new.lenses ≡ hub.old.lenses }
{
    for at in 0..changes.len() {
        if !undo_all(alloc, hub, changes[at].edits(), parts)? {
            return Ok(false);
        }
    }
    Ok(true)
}

// Steps by edits, and adds the words of each to the parts. False if and only if an edit is refused.
fn undo_all<L: EditLens>(
    alloc: Global,
    hub: &mut Hub<L>,
    edits: &[(HubSide, Word)],
    parts: &mut Vec<HubCarried>,
) -> Result<bool, AllocError>
    ensures words { IfOk result (λ all. Stepping L.EditLens hub.old.lenses all (hub_tree hub.old.parts)
        (edit_trees edits.now) (carried_trees parts.old.items) (carried_trees parts.new.items)
        (hub_tree hub.new.parts)) }
    ensures lenses { hub.new.lenses ≡ hub.old.lenses }
{
    for at in 0..edits.len() {
        let Some(words) = undo_edit(alloc, hub, &edits[at])? else {
            return Ok(false);
        };
        parts.push(words)?;
    }
    Ok(true)
}

// Steps by an edit. It returns the inverse of each word that acted.
fn undo_edit<L: EditLens>(
    alloc: Global,
    hub: &mut Hub<L>,
    edit: &(HubSide, Word),
) -> Result<Option<HubCarried>, AllocError>
    ensures words { IfOk result (λ words. UndoesEdit L.EditLens hub.old.lenses (hub_tree hub.old.parts)
        (edit_tree edit.now) (hub_tree hub.new.parts) (option_map hub_carried_tree words)) }
    ensures lenses { hub.new.lenses ≡ hub.old.lenses }
{
    let before = copy_parts(alloc, hub.parts())?;
    match hub.step(edit.0, &edit.1) {
        Ok(carried) => {
            let words = words_back(alloc, hub.lenses(), &before, &carried)?;
            Ok(Some(words))
        }
        Err(HubFault::NoView { .. }) => Ok(None),
        Err(HubFault::NoApply { .. }) => Ok(None),
        Err(HubFault::NoMemory) => Err(AllocError),
    }
}

// The inverse of each word that acted on the parts of a hub.
fn words_back<L: EditLens>(
    alloc: Global,
    lenses: &[L],
    parts: &HubParts,
    carried: &HubCarried,
) -> Result<HubCarried, AllocError>
    requires some { 0 < length lenses.now }
    requires acted { (after : HubTree)
        × ActsTo L.EditLens lenses.now (hub_tree parts.now) (hub_carried_tree carried.now) after }
    ensures is { IfOk result (λ words. hub_carried_tree words
        ≡ undone_step L.EditLens lenses.now (hub_tree parts.now) (hub_carried_tree carried.now)) }
    ensures back { IfOk result (λ words. (after : HubTree)
        → ActsTo L.EditLens lenses.now (hub_tree parts.now) (hub_carried_tree carried.now) after
        → HubBringsBack L.EditLens lenses.now (hub_carried_tree words) after (hub_tree parts.now)) }
{
    let hub = word_back(alloc, lenses[0].ty(Side::Left), &carried.hub, &parts.hub)?;
    let views = views_back(alloc, lenses, &parts.views, carried.views.as_slice())?;
    Ok(HubCarried { hub, views })
}

// The inverses of the words that acted on the views.
fn views_back<L: EditLens>(
    alloc: Global,
    lenses: &[L],
    views: &[View],
    carried: &[Word],
) -> Result<Words, AllocError>
    requires lenses { length lenses.now ≡ length carried.now }
    requires views { length views.now ≡ length carried.now }
    requires acted { (after : List ViewTree)
        × ViewsActTo L.EditLens lenses.now (view_trees views.now) (word_trees carried.now) after }
    ensures is { IfOk result (λ words. word_trees words
        ≡ undone_views L.EditLens lenses.now (view_trees views.now) (word_trees carried.now)) }
    ensures back { IfOk result (λ words. (after : List ViewTree)
        → ViewsActTo L.EditLens lenses.now (view_trees views.now) (word_trees carried.now) after
        → BringViewsBack L.EditLens lenses.now (word_trees words) after (view_trees views.now)) }
{
    let mut words = Vec::with_capacity(alloc, carried.len())?;
    for at in 0..carried.len() {
        let ty = lenses[at].ty(Side::Right);
        let back = word_back(alloc, ty, &carried[at], &views[at].doc)?;
        words.push(back)?;
    }
    Ok(Words::from_vec(words))
}

// The word that takes a document back over a word that acts on it.
fn word_back(alloc: Global, ty: &Ty, word: &Word, doc: &Rc<Doc>) -> Result<Word, AllocError>
    requires well_formed { is_well_formed (ty_tree ty.now) ≡ true }
    requires typed { has (ty_tree ty.now) (doc_tree doc.now.value) ≡ true }
    requires acts { (after : DocTree)
        × (act (ty_tree ty.now) (word_tree word.now) (doc_tree doc.now.value) ≡ Ok after) }
    ensures is { IfOk result (λ back. word_tree back
        ≡ inverse (ty_tree ty.now) (word_tree word.now) (doc_tree doc.now.value)) }
    ensures takes_back { IfOk result (λ back. TakesBack (ty_tree ty.now) (word_tree back)
        (act (ty_tree ty.now) (word_tree word.now) (doc_tree doc.now.value)) (doc_tree doc.now.value)) }
{
    match inverse(alloc, ty, word, doc) {
        Ok(back) => Ok(back),
        Err(InverseFault::NoApply { .. }) => unreachable!(),
        Err(InverseFault::NoMemory) => Err(AllocError),
    }
}
