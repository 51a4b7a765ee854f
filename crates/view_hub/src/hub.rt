//! One document that is kept in step with many views.

ghost use Rattle.std.specs.Prelude.{◌≡◌, ◌<◌, ◌++◌, ◌∷◌, [], Some, Ok, length, map, slice_get, option_map, IfOk, OnOk};
ghost use Rattle.std.specs.Prelude.{OnErr, IfSome, MatchResult};
ghost use Rattle.std.specs.Option.{option_copied};
ghost use Rattle.doc_values.specs.Documents.{doc_tree};
ghost use Rattle.doc_values.specs.Initial.{initial};
ghost use Rattle.edit_module.specs.Action.{act};
ghost use Rattle.edit_module.specs.Views.{word_tree};
ghost use Rattle.view_hub.specs.Groups.{add_view, step_group};
ghost use Rattle.view_hub.specs.Hubs.{at_hub, at_view, first_view, lower, start_hub};
ghost use Rattle.view_hub.specs.Lowering.{IsLowered};
ghost use Rattle.view_hub.specs.Laws.{IsHub, HaveOneLeftType};
ghost use Rattle.view_hub.specs.Views.{hub_carried_tree, edit_trees, hub_tree, view_trees, place_of_side};
ghost use Rattle.view_hub.specs.Views.{IsGroupRefusal};
ghost use Rattle.view_hub.specs.Views.{IsOutcome, IsNextOutcome};

use crate::fault::{HubFault, HubGroupFault};
use crate::group::next_all;
use crate::lift::{Lifted, edit_left, lift};
use crate::lower::{Lowered, Own, added_view, first_views, lower_all, lower_others};
use crate::side::{HubCarried, HubSide};
use crate::view::{HubParts, copy_parts, initial_document};
use doc_values::Doc;
use edit_module::Word;
use edit_module::change::Words;
use lens_core::{Comp, EditLens};
use std::alloc::{AllocError, Global};
use std::marker::Model;
use std::rc::Rc;
use texts::{Side, Twin};

/// A document, the hub, and its views: each has a lens whose left side is the hub, a complement and a document.
///
/// There is no hub in which a view is not in its lens's consistency relation with the hub's document. Contracts see
/// a hub as its lenses and its parts.
#[derive(Drop)]
pub struct Hub<L: EditLens> {
    lenses: Vec<L>,
    parts: HubParts,
    alloc: Global,
}

impl<L: EditLens> Model for Hub<L> {
    ghost use Rattle.view_hub.specs.contracts.view.HubParts as parts_type;
    ghost use Rattle.view_hub.specs.Views.{HubOf, hub_code};

    ghost Value = { HubOf L };

    ghost coded = { hub_code L.code parts_type.the_row.coded };

    ghost use Rattle.view_hub.specs.Laws.{IsHub};
    ghost use Rattle.view_hub.specs.Views.{hub_tree};

    ghost view = { λ h. record { lenses = h.lenses.items; parts = h.parts } };

    ghost invariant = { λ h. IsHub L.EditLens h.lenses.items (hub_tree h.parts) };
}

impl<L: EditLens> Hub<L> {
    /// A hub with the initial document of the lenses' left type. Each view has its lens's missing complement and
    /// the initial document of its right type.
    ///
    /// There is a lens, and all lenses have the same left type. The views are numbered from 0 in the order of the
    /// lenses. The hub keeps the allocator for its steps. It fails only if memory runs out. The lenses are then
    /// dropped.
    pub fn start(alloc: Global, lenses: Vec<L>) -> Result<Hub<L>, AllocError>
    where
        L: Drop,
        requires { HaveOneLeftType L.EditLens lenses.items }
        ensures lenses { IfOk result (λ h. h.lenses ≡ lenses.items) }
        ensures start { IfOk result (λ h. start_hub L.EditLens lenses.items
            ≡ Some (hub_tree h.parts)) }
    {
        let parts = first_parts(alloc, &lenses)?;
        Ok(Hub {
            lenses,
            parts,
            alloc,
        })
    }

    /// Applies a word to the hub's document or to that of a view, and carries it to all the others. Returns the
    /// words that acted: the hub's and one for each view.
    ///
    /// A word of the hub is carried to each view by the view's lens. A word of a view is carried to the hub by its
    /// lens, and the hub's word from there to each other view. The word that is returned for the edited document is
    /// the word itself.
    ///
    /// - `NoView`: if and only if there is no view with this number; it has the number of views.
    /// - `NoApply`: if and only if the word does not apply to the edited document; it has the number of the first
    ///   primitive that fails, and the cause.
    /// - `NoMemory`: only if memory ran out.
    ///
    /// After an error all documents and complements are as they were. A word that applies to the edited document is
    /// carried to the hub and to every view, and applies there. A view whose word is empty keeps its document,
    /// which is neither copied nor walked over.
    pub fn step(&mut self, side: HubSide, word: &Word) -> Result<HubCarried, HubFault>
        ensures steps { IsOutcome L.EditLens self.old (place_of_side side, word_tree word.now)
            self.new result }
        ensures in_step { IsHub L.EditLens self.new.lenses (hub_tree self.new.parts) }
        ensures lenses { self.new.lenses ≡ self.old.lenses }
        ensures unchanged { OnErr result (self.new ≡ self.old) }
    {
        let (parts, carried) = next(self.alloc, &self.lenses, &self.parts, side, word)?;
        self.parts = parts;
        Ok(carried)
    }

    /// Applies a group of edits, one after another, all of them or none. Returns the words that acted in each.
    ///
    /// Each edit starts from the hub that the edit before it left, and is applied and carried as by [`Hub::step`]. A
    /// group of no edits leaves the hub as it is.
    ///
    /// - `NoView`: if and only if an edit names a view that does not exist, and it is the first that is refused; it has
    ///   the number of the edit in the group, from 0, and the number of views.
    /// - `NoApply`: if and only if the word of an edit does not apply when its turn comes, and it is the first that is
    ///   refused; it has the number of the edit, the number of the first primitive that fails, and the cause.
    /// - `NoMemory`: only if memory ran out.
    ///
    /// After an error all documents and complements are as they were before the group.
    pub fn step_all(&mut self, edits: &[(HubSide, Word)]) -> Result<Vec<HubCarried>, HubGroupFault>
        ensures steps { MatchResult result
            (λ words. step_group L.EditLens self.old.lenses (hub_tree self.old.parts)
            (edit_trees edits.now)
            ≡ Some (Ok (hub_tree self.new.parts, map hub_carried_tree words.items)))
            (IsGroupRefusal (step_group L.EditLens self.old.lenses (hub_tree self.old.parts)
            (edit_trees edits.now))) }
        ensures in_step { IsHub L.EditLens self.new.lenses (hub_tree self.new.parts) }
        ensures lenses { self.new.lenses ≡ self.old.lenses }
        ensures unchanged { OnErr result (self.new ≡ self.old) }
    {
        let (parts, words) = next_all(self.alloc, &self.lenses, &self.parts, edits)?;
        self.parts = parts;
        Ok(words)
    }

    /// Puts a document and views in the place of the hub's own. Each view is in its lens's relation with the document.
    ///
    /// The lenses stay. It does not allocate.
    pub fn replace(&mut self, parts: HubParts)
        requires in_step { IsHub L.EditLens self.old.lenses (hub_tree parts) }
        ensures lenses { self.new.lenses ≡ self.old.lenses }
        ensures parts { self.new.parts ≡ parts }
    {
        self.parts = parts;
    }

    /// Adds a view with this lens behind the others. The word makes the hub's document from the initial one; the view
    /// is what the lens makes of that word from its start, so it is in step with the hub.
    ///
    /// The lens has the left type of the others. It fails only if memory runs out, and the hub is then as it was.
    pub fn add(&mut self, lens: L, word: &Word) -> Result<(), AllocError>
    where
        L: Drop,
        requires same_left { HaveOneLeftType L.EditLens (self.old.lenses ++ lens ∷ []) }
        requires makes { act (L.left_type lens) (word_tree word.now) (initial (L.left_type lens))
            ≡ Ok (doc_tree self.old.parts.hub.value) }
        ensures added { OnOk result (add_view L.EditLens lens (word_tree word.now)
            (hub_tree self.old.parts) ≡ Some (hub_tree self.new.parts)) }
        ensures lenses { OnOk result (self.new.lenses ≡ self.old.lenses ++ lens ∷ []) }
        ensures in_step { IsHub L.EditLens self.new.lenses (hub_tree self.new.parts) }
        ensures unchanged { OnErr result (self.new ≡ self.old) }
    {
        let parts = one_view_more(self.alloc, &self.parts, &lens, word)?;
        self.lenses.push(lens)?;
        self.parts = parts;
        Ok(())
    }

    /// The lenses, one for each view and in their order.
    pub fn lenses(&self) -> &[L]
        ensures lenses { result.now ≡ self.now.lenses }
    {
        &self.lenses
    }

    /// The hub's document and the views. Each view is in its lens's relation with the document.
    pub fn parts(&self) -> &HubParts
        ensures parts { result.now ≡ self.now.parts }
        ensures in_step { IsHub L.EditLens self.now.lenses (hub_tree self.now.parts) }
    {
        &self.parts
    }

    /// The hub's document. It is in each view's relation with the view's complement and document.
    pub fn hub(&self) -> &Doc
        ensures hub { result.now ≡ self.now.parts.hub.value }
        ensures in_step { IsHub L.EditLens self.now.lenses (hub_tree self.now.parts) }
    {
        &self.parts.hub
    }

    /// How many views there are.
    pub fn count(&self) -> u64
        ensures { result ≡ length self.now.parts.views.items }
    {
        self.parts.views.len() as u64
    }

    /// The document of the view with this number, from 0. None if and only if there is no such view.
    pub fn view(&self, at: u64) -> Option<&Doc>
        ensures { option_copied result ≡ option_map (λ v. v.doc.value)
            (slice_get self.now.parts.views.items at) }
    {
        match self.parts.views.get(at as usize) {
            Some(view) => Some(&view.doc),
            None => None,
        }
    }

    /// The complement of the view with this number, from 0. None if and only if there is no such view.
    pub fn comp(&self, at: u64) -> Option<&Comp>
        ensures { option_copied result ≡ option_map (λ v. v.comp)
            (slice_get self.now.parts.views.items at) }
    {
        match self.parts.views.get(at as usize) {
            Some(view) => Some(&view.comp),
            None => None,
        }
    }
}

// The parts at the start.
fn first_parts<L: EditLens>(alloc: Global, lenses: &[L]) -> Result<HubParts, AllocError>
    requires { HaveOneLeftType L.EditLens lenses.now }
    ensures { IfOk result (λ p. start_hub L.EditLens lenses.now
        ≡ Some (hub_tree p)) }
{
    let hub = initial_document(alloc, lenses[0].ty(Side::Left))?;
    let views = first_views(alloc, lenses)?;
    Ok(HubParts { hub, views })
}

// The parts with a view more, which its lens makes, from its start, of a word that is carried to it.
fn one_view_more<L: EditLens>(
    alloc: Global,
    parts: &HubParts,
    lens: &L,
    word: &Word,
) -> Result<HubParts, AllocError>
    requires { IsLowered
        (lower L.EditLens lens.now (word_tree word.now) (first_view L.EditLens lens.now)) }
    ensures { IfOk result (λ p. add_view L.EditLens lens.now (word_tree word.now)
        (hub_tree parts.now) ≡ Some (hub_tree p)) }
{
    let (view, carried) = added_view(alloc, lens, word)?;
    drop(carried);
    let mut longer = copy_parts(alloc, parts)?;
    longer.views.push(view)?;
    Ok(longer)
}

// The parts after a step, and the words that acted.
pub(crate) fn next<L: EditLens>(
    alloc: Global,
    lenses: &[L],
    parts: &HubParts,
    side: HubSide,
    word: &Word,
) -> Result<(HubParts, HubCarried), HubFault>
    requires in_step { IsHub L.EditLens lenses.now (hub_tree parts.now) }
    ensures { IsNextOutcome L.EditLens lenses.now (hub_tree parts.now)
        (place_of_side side, word_tree word.now) result }
{
    match side {
        HubSide::Hub => edit_hub(alloc, lenses, parts, word),
        HubSide::View(at) => {
            let views = parts.views.len() as u64;
            if at >= views {
                return Err(HubFault::NoView { views });
            }
            edit_view(alloc, lenses, parts, at as usize, word)
        }
    }
}

// The parts after a word of the hub.
fn edit_hub<L: EditLens>(
    alloc: Global,
    lenses: &[L],
    parts: &HubParts,
    word: &Word,
) -> Result<(HubParts, HubCarried), HubFault>
    requires in_step { IsHub L.EditLens lenses.now (hub_tree parts.now) }
    ensures { IsNextOutcome L.EditLens lenses.now (hub_tree parts.now)
        (at_hub, word_tree word.now) result }
{
    let hub = edit_left(alloc, &lenses[0], &parts.hub, word)?;
    let own = word.twin(alloc)?;
    let lowered = lower_all(alloc, lenses, &parts.views, word)?;
    Ok(parts_of(hub, own, lowered))
}

// The parts after a word of the view at a place.
fn edit_view<L: EditLens>(
    alloc: Global,
    lenses: &[L],
    parts: &HubParts,
    place: usize,
    word: &Word,
) -> Result<(HubParts, HubCarried), HubFault>
    requires view { place < length parts.now.views.items }
    requires in_step { IsHub L.EditLens lenses.now (hub_tree parts.now) }
    ensures { IsNextOutcome L.EditLens lenses.now (hub_tree parts.now)
        (at_view place, word_tree word.now) result }
{
    let own = word.twin(alloc)?;
    let lifted = match lift(alloc, &lenses[place], &parts.hub, &parts.views[place], word) {
        Ok(lifted) => lifted,
        Err(fault) => return Err(fault),
    };
    let Lifted { view, word, hub } = lifted;
    let own = Own { view, word: own };
    let lowered = lower_others(alloc, lenses, &parts.views, place, own, &word)?;
    Ok(parts_of(hub, word, lowered))
}

// The parts of the hub's document after a word and of the views, with their words.
fn parts_of(hub: Rc<Doc>, word: Word, lowered: Lowered) -> (HubParts, HubCarried)
    ensures hub { result.0.hub ≡ hub }
    ensures views { result.0.views ≡ lowered.views }
    ensures word { result.1.hub ≡ word }
    ensures words { result.1.views ≡ lowered.words.items }
{
    let Lowered { views, words } = lowered;
    let parts = HubParts { hub, views };
    let carried = HubCarried {
        hub: word,
        views: Words::from_vec(words),
    };
    (parts, carried)
}
