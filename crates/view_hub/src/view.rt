//! The documents of a hub, and what a word makes of one.

ghost use Rattle.std.specs.Prelude.{◌≡◌, true, Ok, IfOk, MatchResult};
ghost use Rattle.doc_values.specs.Documents.{doc_tree};
ghost use Rattle.doc_values.specs.Initial.{initial};
ghost use Rattle.doc_values.specs.Types.{ty_tree, is_well_formed};
ghost use Rattle.doc_values.specs.Typing.{has};
ghost use Rattle.edit_module.specs.Action.{act};
ghost use Rattle.edit_module.specs.Refusals.{IsRefusal};
ghost use Rattle.edit_module.specs.Views.{word_tree};
ghost use Rattle.view_hub.specs.Views.{hub_tree, view_tree};

use doc_values::{Doc, Ty, init};
use edit_module::{ActFault, Word, act};
use lens_core::Comp;
use std::alloc::{AllocError, Global};
use std::rc::Rc;
use texts::Twin;

/// A view: its complement and its document. A document is shared, so that a step which leaves it as it is copies no
/// document.
#[derive(Drop)]
pub struct View {
    /// The complement of the view's lens.
    pub comp: Comp,
    /// The document of the view.
    pub doc: Rc<Doc>,
}

/// The document of the hub, and the views.
#[derive(Drop)]
pub struct HubParts {
    /// The document of the hub.
    pub hub: Rc<Doc>,
    /// The views, in the order of their lenses.
    pub views: Vec<View>,
}

/// A copy of the parts, which shares their contents. The only error is running out of memory.
pub fn copy_parts(alloc: Global, parts: &HubParts) -> Result<HubParts, AllocError>
    ensures { IfOk result (λ copy. hub_tree copy ≡ hub_tree parts.now) }
{
    let mut views = Vec::with_capacity(alloc, parts.views.len())?;
    for view in &parts.views {
        views.push(copy_view(alloc, view)?)?;
    }
    Ok(HubParts {
        hub: parts.hub.clone()?,
        views,
    })
}

fn copy_view(alloc: Global, view: &View) -> Result<View, AllocError>
    ensures { IfOk result (λ copy. view_tree copy ≡ view_tree view.now) }
{
    let comp = view.comp.twin(alloc)?;
    Ok(View {
        comp,
        doc: view.doc.clone()?,
    })
}

// The initial document of a type.
pub(crate) fn initial_document(alloc: Global, ty: &Ty) -> Result<Rc<Doc>, AllocError>
    requires { is_well_formed (ty_tree ty.now) ≡ true }
    ensures { IfOk result (λ d. doc_tree d.value ≡ initial (ty_tree ty.now)) }
{
    let doc = init(alloc, ty)?;
    shared(alloc, doc)
}

// The document after a word. The empty word leaves the document as it is, and neither copies it nor walks over it.
#[tactic(auto, using(crate::proofs::EmptyWords::empty_acts))]
pub(crate) fn after_word(
    alloc: Global,
    ty: &Ty,
    word: &Word,
    doc: &Rc<Doc>,
) -> Result<Rc<Doc>, ActFault>
    requires well_formed { is_well_formed (ty_tree ty.now) ≡ true }
    requires typed { has (ty_tree ty.now) (doc_tree doc.now.value) ≡ true }
    ensures { MatchResult result
        (λ d. act (ty_tree ty.now) (word_tree word.now) (doc_tree doc.now.value) ≡ Ok (doc_tree d.value))
        (IsRefusal (act (ty_tree ty.now) (word_tree word.now) (doc_tree doc.now.value))) }
{
    if word.len() == 0 {
        return Ok(doc.clone()?);
    }
    let after = act(alloc, ty, word, doc)?;
    Ok(shared(alloc, after)?)
}

// A document that may be shared.
fn shared(alloc: Global, doc: Doc) -> Result<Rc<Doc>, AllocError>
    ensures { IfOk result (λ d. doc_tree d.value ≡ doc_tree doc) }
{
    Ok(Rc::new(alloc, doc)?)
}
