//! A word of the hub at its views.

ghost use Rattle.std.specs.Prelude.{◌≡◌, ◌<◌, true, [], Some, length, map, IfOk, OnOk};
ghost use Rattle.doc_values.specs.Documents.{doc_tree};
ghost use Rattle.doc_values.specs.Typing.{has};
ghost use Rattle.edit_module.specs.Views.{word_tree, word_trees};
ghost use Rattle.view_hub.specs.Hubs.{lower, lower_all, lower_others, first_view};
ghost use Rattle.view_hub.specs.Lowering.{IsLowered, CanLower, Adds};
ghost use Rattle.view_hub.specs.Views.{view_tree, view_trees};

use crate::view::{View, after_word, initial_document};
use edit_module::{ActFault, Word};
use lens_core::{Carried, CarryFault, EditLens};
use std::alloc::{AllocError, Global};
use texts::Side;

// Views after a word of the hub, and the words that it was carried to, one for each.
#[derive(Drop)]
pub(crate) struct Lowered {
    pub(crate) views: Vec<View>,
    pub(crate) words: Vec<Word>,
}

// The views at the start.
pub(crate) fn first_views<L: EditLens>(alloc: Global, lenses: &[L]) -> Result<Vec<View>, AllocError>
    ensures { IfOk result (λ vs. view_trees vs.items
        ≡ map (first_view L.EditLens) lenses.now) }
{
    let mut views = Vec::new(alloc);
    for lens in lenses {
        views.push(view_of(alloc, lens)?)?;
    }
    Ok(views)
}

// A view at the start.
fn view_of<L: EditLens>(alloc: Global, lens: &L) -> Result<View, AllocError>
    ensures { IfOk result (λ v. view_tree v
        ≡ first_view L.EditLens lens.now) }
{
    let comp = lens.missing(alloc)?;
    let doc = initial_document(alloc, lens.ty(Side::Right))?;
    Ok(View { comp, doc })
}

// The view that a lens makes, from its start, of a word that is carried to it, and the carried word.
pub(crate) fn added_view<L: EditLens>(
    alloc: Global,
    lens: &L,
    word: &Word,
) -> Result<(View, Word), AllocError>
    requires { IsLowered
        (lower L.EditLens lens.now (word_tree word.now) (first_view L.EditLens lens.now)) }
    ensures { IfOk result (λ r. lower L.EditLens lens.now (word_tree word.now)
        (first_view L.EditLens lens.now) ≡ Some (view_tree r.0, word_tree r.1)) }
{
    let first = view_of(alloc, lens)?;
    lower(alloc, lens, &first, word)
}

// Every view after a word of the hub.
pub(crate) fn lower_all<L: EditLens>(
    alloc: Global,
    lenses: &[L],
    views: &[View],
    word: &Word,
) -> Result<Lowered, AllocError>
    requires { CanLower L.EditLens (word_tree word.now) lenses.now (view_trees views.now) }
    ensures { IfOk result (λ out. Adds
        (lower_all L.EditLens (word_tree word.now) lenses.now (view_trees views.now))
        [] [] (view_trees out.views.items) (word_trees out.words.items)) }
{
    let mut out = Lowered {
        views: Vec::new(alloc),
        words: Vec::new(alloc),
    };
    lower_each(alloc, lenses, views, word, &mut out)?;
    Ok(out)
}

// Every view after a word of the hub but the one at a place, which has this new view and this word of its own.
pub(crate) fn lower_others<L: EditLens>(
    alloc: Global,
    lenses: &[L],
    views: &[View],
    place: usize,
    own: Own,
    word: &Word,
) -> Result<Lowered, AllocError>
    requires lens { place < length lenses.now }
    requires view { place < length views.now }
    requires lowers { CanLower L.EditLens (word_tree word.now) lenses.now (view_trees views.now) }
    ensures { IfOk result (λ out. Adds (lower_others L.EditLens (word_tree word.now)
        (view_tree own.view, word_tree own.word) place
        lenses.now (view_trees views.now))
        [] [] (view_trees out.views.items) (word_trees out.words.items)) }
{
    let mut out = Lowered {
        views: Vec::new(alloc),
        words: Vec::new(alloc),
    };
    lower_each(alloc, &lenses[..place], &views[..place], word, &mut out)?;
    out.views.push(own.view)?;
    out.words.push(own.word)?;
    lower_each(
        alloc,
        &lenses[place + 1..],
        &views[place + 1..],
        word,
        &mut out,
    )?;
    Ok(out)
}

// A view that was edited, after the edit, and the word that edited it.
#[derive(Drop)]
pub(crate) struct Own {
    pub(crate) view: View,
    pub(crate) word: Word,
}

// Adds these views after a word of the hub, with their words.
fn lower_each<L: EditLens>(
    alloc: Global,
    lenses: &[L],
    views: &[View],
    word: &Word,
    out: &mut Lowered,
) -> Result<(), AllocError>
    requires { CanLower L.EditLens (word_tree word.now) lenses.now (view_trees views.now) }
    ensures { OnOk result (Adds
        (lower_all L.EditLens (word_tree word.now) lenses.now (view_trees views.now))
        (view_trees out.old.views.items) (word_trees out.old.words.items)
        (view_trees out.new.views.items) (word_trees out.new.words.items)) }
{
    for place in 0..views.len() {
        let (after, carried) = lower(alloc, &lenses[place], &views[place], word)?;
        out.views.push(after)?;
        out.words.push(carried)?;
    }
    Ok(())
}

// A view after a word of the hub, and the word that it was carried to. The definition has a value, so that nothing
// is refused.
fn lower<L: EditLens>(
    alloc: Global,
    lens: &L,
    view: &View,
    word: &Word,
) -> Result<(View, Word), AllocError>
    requires typed { has (L.right_type lens.now) (doc_tree view.now.doc.value) ≡ true }
    requires lowers { IsLowered
        (lower L.EditLens lens.now (word_tree word.now) (view_tree view.now)) }
    ensures { IfOk result (λ r. lower L.EditLens lens.now (word_tree word.now) (view_tree view.now)
        ≡ Some (view_tree r.0, word_tree r.1)) }
{
    let Carried { word, comp } = match lens.carry(alloc, Side::Left, &view.comp, word) {
        Ok(carried) => carried,
        Err(CarryFault::Unfit) => unreachable!(),
        Err(CarryFault::NoMemory) => return Err(AllocError),
    };
    let doc = match after_word(alloc, lens.ty(Side::Right), &word, &view.doc) {
        Ok(doc) => doc,
        Err(ActFault::NoApply { .. }) => unreachable!(),
        Err(ActFault::NoMemory) => return Err(AllocError),
    };
    Ok((View { comp, doc }, word))
}
