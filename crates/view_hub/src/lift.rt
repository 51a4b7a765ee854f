//! A word of one document, and of a view at the hub.

ghost use Rattle.std.specs.Prelude.{◌≡◌, true, Ok, MatchResult};
ghost use Rattle.doc_values.specs.Documents.{doc_tree};
ghost use Rattle.doc_values.specs.Typing.{has};
ghost use Rattle.edit_module.specs.Action.{act};
ghost use Rattle.edit_module.specs.Views.{word_tree};
ghost use Rattle.lens_core.specs.Complements.{comp_tree};
ghost use Rattle.view_hub.specs.Lowering.{IsLifted};
ghost use Rattle.view_hub.specs.Views.{view_tree, IsActionFault};

use crate::fault::{HubFault, of_action};
use crate::view::{View, after_word};
use doc_values::Doc;
use edit_module::{ActFault, Word};
use lens_core::{Carried, CarryFault, EditLens};
use std::alloc::Global;
use std::rc::Rc;
use texts::Side;

// An edited view after the edit, with the word that it was carried to and the document of the hub after that.
#[derive(Drop)]
pub(crate) struct Lifted {
    pub(crate) view: View,
    pub(crate) word: Word,
    pub(crate) hub: Rc<Doc>,
}

// The document of the hub after a word.
pub(crate) fn edit_left<L: EditLens>(
    alloc: Global,
    lens: &L,
    hub: &Rc<Doc>,
    word: &Word,
) -> Result<Rc<Doc>, HubFault>
    requires typed { has (L.left_type lens.now) (doc_tree hub.now.value) ≡ true }
    ensures { MatchResult result
        (λ d. act (L.left_type lens.now) (word_tree word.now) (doc_tree hub.now.value)
        ≡ Ok (doc_tree d.value))
        (IsActionFault (act (L.left_type lens.now) (word_tree word.now)
        (doc_tree hub.now.value))) }
{
    match after_word(alloc, lens.ty(Side::Left), word, hub) {
        Ok(doc) => Ok(doc),
        Err(fault) => Err(of_action(fault)),
    }
}

// The document of a view after a word.
fn edit_right<L: EditLens>(
    alloc: Global,
    lens: &L,
    view: &Rc<Doc>,
    word: &Word,
) -> Result<Rc<Doc>, HubFault>
    requires typed { has (L.right_type lens.now) (doc_tree view.now.value) ≡ true }
    ensures { MatchResult result
        (λ d. act (L.right_type lens.now) (word_tree word.now) (doc_tree view.now.value)
        ≡ Ok (doc_tree d.value))
        (IsActionFault (act (L.right_type lens.now) (word_tree word.now)
        (doc_tree view.now.value))) }
{
    match after_word(alloc, lens.ty(Side::Right), word, view) {
        Ok(doc) => Ok(doc),
        Err(fault) => Err(of_action(fault)),
    }
}

// What a word of a view makes of the view and of the hub, which are in step: the carried word applies to the hub.
pub(crate) fn lift<L: EditLens>(
    alloc: Global,
    lens: &L,
    hub: &Rc<Doc>,
    view: &View,
    word: &Word,
) -> Result<Lifted, HubFault>
    requires in_step { L.holds lens.now (doc_tree hub.now.value)
        (comp_tree view.now.comp) (doc_tree view.now.doc.value) }
    ensures { MatchResult result
        (λ r. IsLifted L.EditLens lens.now
        (doc_tree hub.now.value) (view_tree view.now) (word_tree word.now)
        (view_tree r.view) (word_tree r.word) (doc_tree r.hub.value))
        (IsActionFault (act (L.right_type lens.now) (word_tree word.now)
        (doc_tree view.now.doc.value))) }
{
    let doc = edit_right(alloc, lens, &view.doc, word)?;
    let Carried { word, comp } = match lens.carry(alloc, Side::Right, &view.comp, word) {
        Ok(carried) => carried,
        Err(CarryFault::Unfit) => unreachable!(),
        Err(CarryFault::NoMemory) => return Err(HubFault::NoMemory),
    };
    let hub = match after_word(alloc, lens.ty(Side::Left), &word, hub) {
        Ok(hub) => hub,
        Err(ActFault::NoApply { .. }) => unreachable!(),
        Err(ActFault::NoMemory) => return Err(HubFault::NoMemory),
    };
    let view = View { comp, doc };
    Ok(Lifted { view, word, hub })
}
