//! The state of a hub from its texts, or the first fault.

ghost use Rattle.std.specs.Prelude.{◌≡◌, ◌*◌, ◌↔◌, IfOk, IsTrue, MatchOption, MatchResult, length, map};
ghost use Rattle.doc_values.specs.Documents.{doc_tree};
ghost use Rattle.lens_forms.specs.Forms.{form_tree};
ghost use Rattle.view_hub.specs.Laws.{HaveOneLeftType, IsHub};
ghost use Rattle.view_hub.specs.Views.{hub_tree, view_tree, view_trees};
ghost use Rattle.hub_run.specs.FormLenses.{form_lens};
ghost use Rattle.embed_hub.specs.Resuming.{AreStateTexts, AreViewTexts, IsStateFault, IsOutOfStep, IsViewOf};
ghost use Rattle.embed_hub.specs.StateSteps.{IsTextsFault, IsViewText, IsViewFault, IsViewsEnd, AreAllInStep};

use crate::outcome::HubStateFault;
use doc_values::Doc;
use embed_session::{complement_of_text, document_of_text};
use lens_check::consistent;
use lens_types::Typed;
use std::alloc::{AllocError, Global};
use std::rc::Rc;
use texts::Bytes;
use view_hub::{HubParts, View};

// The state of these texts, which is consistent, or the first fault.
pub(crate) fn read_state(
    alloc: Global,
    typed: &[Typed],
    texts: &[Bytes],
) -> Result<HubParts, HubStateFault>
    requires one_left { HaveOneLeftType form_lens (map form_tree typed.now) }
    ensures state { MatchResult result
        (λ parts. AreStateTexts (map form_tree typed.now) texts.now (hub_tree parts))
        (IsStateFault (map form_tree typed.now) texts.now) }
    ensures in_step { IfOk result (λ parts. IsHub form_lens (map form_tree typed.now) (hub_tree parts)) }
{
    let parts = read_parts(alloc, typed, texts)?;
    match out_of_step(alloc, typed, &parts.hub, &parts.views)? {
        Some(number) => Err(HubStateFault::NotConsistent(number)),
        None => Ok(parts),
    }
}

// The state of these texts, consistent or not, or the first text that is wrong.
fn read_parts(alloc: Global, typed: &[Typed], texts: &[Bytes]) -> Result<HubParts, HubStateFault>
    requires one_left { HaveOneLeftType form_lens (map form_tree typed.now) }
    ensures { MatchResult result
        (λ parts. AreStateTexts (map form_tree typed.now) texts.now (hub_tree parts))
        (IsTextsFault (map form_tree typed.now) texts.now) }
{
    if texts.len() != 2 * typed.len() + 1 {
        return Err(HubStateFault::OtherCount);
    }
    let Some(hub) = document_of_text(alloc, typed[0].left(), texts[0].as_slice())? else {
        return Err(HubStateFault::NotHub);
    };
    let views = read_views(alloc, typed, &texts[1..])?;
    Ok(HubParts {
        hub: Rc::new(alloc, hub)?,
        views,
    })
}

// The views of these texts, of which each view has two, or the first text that is wrong.
fn read_views(alloc: Global, typed: &[Typed], texts: &[Bytes]) -> Result<Vec<View>, HubStateFault>
    requires count { length texts.now ≡ 2 * length typed.now }
    ensures { MatchResult result
        (λ views. AreViewTexts (map form_tree typed.now) texts.now (view_trees views.items))
        (IsViewsEnd (map form_tree typed.now) texts.now) }
{
    let mut views = Vec::with_capacity(alloc, typed.len())?;
    for number in 0..typed.len() {
        let doc = texts[2 * number].as_slice();
        let comp = texts[2 * number + 1].as_slice();
        views.push(read_view(alloc, number as u64, &typed[number], doc, comp)?)?;
    }
    Ok(views)
}

// The view with this number of its two texts.
fn read_view(
    alloc: Global,
    number: u64,
    typed: &Typed,
    doc: &[u8],
    comp: &[u8],
) -> Result<View, HubStateFault>
    ensures { MatchResult result
        (λ view. IsViewText (form_tree typed.now) doc.now comp.now (view_tree view))
        (IsViewFault number (form_tree typed.now) doc.now comp.now) }
{
    let Some(doc) = document_of_text(alloc, typed.right(), doc)? else {
        return Err(HubStateFault::NotView(number));
    };
    let Some(comp) = complement_of_text(alloc, typed, comp)? else {
        return Err(HubStateFault::NotComplement(number));
    };
    Ok(View {
        comp,
        doc: Rc::new(alloc, doc)?,
    })
}

// The number of the first view that is not consistent with the document of the hub. None if and only if there is none.
fn out_of_step(
    alloc: Global,
    typed: &[Typed],
    hub: &Doc,
    views: &[View],
) -> Result<Option<u64>, AllocError>
    requires count { length views.now ≡ length typed.now }
    ensures { IfOk result (λ found. MatchOption found
        (AreAllInStep (doc_tree hub.now) (map form_tree typed.now) (view_trees views.now))
        (IsOutOfStep 0 (doc_tree hub.now) (map form_tree typed.now) (view_trees views.now))) }
{
    for number in 0..typed.len() {
        if !is_in_step(alloc, &typed[number], hub, &views[number])? {
            return Ok(Some(number as u64));
        }
    }
    Ok(None)
}

// Whether a view is consistent with the document of the hub.
fn is_in_step(alloc: Global, typed: &Typed, hub: &Doc, view: &View) -> Result<bool, AllocError>
    ensures { IfOk result (λ is.
        IsTrue is ↔ IsViewOf (doc_tree hub.now) (form_tree typed.now) (view_tree view.now)) }
{
    consistent(alloc, typed, hub, &view.comp, &view.doc)
}
