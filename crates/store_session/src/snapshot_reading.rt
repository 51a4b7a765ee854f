//! The triple of a snapshot.

ghost use Rattle.std.specs.Prelude.{◌≡◌, ◌↔◌, IfOk, IsTrue, option_map, option_and_then};
ghost use Rattle.serde_json.specs.View.{view};
ghost use Rattle.doc_values.specs.Documents.{doc_tree};
ghost use Rattle.doc_values.specs.Types.{ty_tree};
ghost use Rattle.value_json.specs.DocumentJson.{document_of};
ghost use Rattle.lens_core.specs.Complements.{comp_tree};
ghost use Rattle.lens_core.specs.Consistency.{IsConsistent};
ghost use Rattle.lens_forms.specs.Forms.{form_tree};
ghost use Rattle.edit_session.specs.Views.{triple_tree};
ghost use Rattle.store_session.specs.ConsistencyTest.{is_consistent};
ghost use Rattle.store_records.specs.StoredComplements.{complement_of};
ghost use Rattle.store_session.specs.Stands.{triple_of};

use complement_file::{CompFault, read_comp};
use doc_values::{Doc, Ty};
use edit_session::Triple;
use lens_check::consistent;
use lens_core::Comp;
use lens_types::Typed;
use serde_json::Value;
use std::alloc::{AllocError, Global};
use value_json::{DocFault, read_doc};

// The triple of the trees of a complement, a left document and a right document.
//
// None if and only if one of them is not one of the lens's: a document of its type, or a complement that fits.
pub(crate) fn read_triple(
    alloc: Global,
    typed: &Typed,
    comp: &Value,
    left: &Value,
    right: &Value,
) -> Result<Option<Triple>, AllocError>
    ensures { IfOk result (λ t. option_map triple_tree t
        ≡ triple_of (form_tree typed.now) (view comp.now, view left.now, view right.now)) }
{
    let Some(left) = read_document(alloc, typed.left(), left)? else {
        return Ok(None);
    };
    let Some(comp) = read_complement(alloc, typed, comp)? else {
        return Ok(None);
    };
    let Some(right) = read_document(alloc, typed.right(), right)? else {
        return Ok(None);
    };
    Ok(Some(Triple { left, comp, right }))
}

/// The document of a tree. None if and only if it is not one of this type. Fails only if memory runs out.
pub fn read_document(alloc: Global, ty: &Ty, tree: &Value) -> Result<Option<Doc>, AllocError>
    ensures { IfOk result (λ doc. option_map doc_tree doc ≡ document_of (ty_tree ty.now) (view tree.now)) }
{
    match read_doc(alloc, ty, tree) {
        Ok(doc) => Ok(Some(doc)),
        Err(DocFault::NotOfType) => Ok(None),
        Err(DocFault::NoMemory) => Err(AllocError),
    }
}

/// The complement of a tree. None if and only if it does not fit this lens. Fails only if memory runs out.
pub fn read_complement(
    alloc: Global,
    typed: &Typed,
    tree: &Value,
) -> Result<Option<Comp>, AllocError>
    ensures { IfOk result (λ comp. option_map comp_tree comp ≡ complement_of (form_tree typed.now) (view tree.now)) }
{
    // The proof needs that the form is typed, which this call says.
    let _form = typed.form();
    match read_comp(alloc, typed, tree) {
        Ok(comp) => Ok(Some(comp)),
        Err(CompFault::NotAComplement) => Ok(None),
        Err(CompFault::NoMemory) => Err(AllocError),
    }
}

// Whether a triple is consistent.
pub(crate) fn is_in_step(alloc: Global, typed: &Typed, triple: &Triple) -> Result<bool, AllocError>
    ensures tested { IfOk result (λ b. b
        ≡ is_consistent (form_tree typed.now) (doc_tree triple.now.left) (comp_tree triple.now.comp)
        (doc_tree triple.now.right)) }
    ensures consistent { IfOk result (λ b. IsTrue b
        ↔ IsConsistent (form_tree typed.now) (doc_tree triple.now.left) (comp_tree triple.now.comp)
        (doc_tree triple.now.right)) }
{
    // The proof needs that the form is typed, which this call says.
    let _form = typed.form();
    consistent(alloc, typed, &triple.left, &triple.comp, &triple.right)
}
