//! The texts of the trees of a session's triple. Each of them is made once.

ghost use Rattle.std.specs.Prelude.{◌≡◌, ◌≤◌, true, false, IfOk, OnOk, IsTrue, string_bytes};
ghost use Rattle.serde_json.specs.Data.{depth};
ghost use Rattle.serde_json.specs.Read.{max_depth};
ghost use Rattle.serde_json.specs.View.{view};
ghost use Rattle.serde_json.specs.Written.{has_float};
ghost use Rattle.doc_values.specs.Documents.{doc_tree};
ghost use Rattle.doc_values.specs.Types.{ty_tree, is_well_formed, height};
ghost use Rattle.doc_values.specs.Typing.{has};
ghost use Rattle.value_json.specs.DocumentJson.{holds_i64s, tree_of_document};
ghost use Rattle.lens_core.specs.Complements.{comp_tree, Fits};
ghost use Rattle.lens_forms.specs.Forms.{form_tree};
ghost use Rattle.lens_forms.specs.declared.limits.TheConstants.{GREATEST_HEIGHT};
ghost use Rattle.complement_file.specs.ComplementJson.{tree_of_complement};
ghost use Rattle.edit_session.specs.Views.{triple_tree};
ghost use Rattle.store_undo.specs.TreeTexts.{IsTreeText, AreTreeTexts};

use complement_file::write_comp;
use doc_values::{Doc, Ty};
use edit_session::Session;
use lens_core::Comp;
use lens_flat::Flat;
use lens_types::Typed;
use serde_json::Value;
use std::alloc::{AllocError, Global};
use value_json::write_doc;

// The texts of the left document, of the complement and of the right document, with no space between their parts.
#[derive(Drop)]
pub(crate) struct TreeTexts {
    pub(crate) left: String,
    pub(crate) comp: String,
    pub(crate) right: String,
}

// The texts of a session's triple.
pub(crate) fn tree_texts(alloc: Global, session: &Session<Flat>) -> Result<TreeTexts, AllocError>
    ensures { IfOk result (AreTreeTexts (form_tree session.now.lens.typed) (triple_tree session.now.triple)) }
{
    let typed = session.lens().typed();
    // The proof needs how high the form is, which this call says.
    let _form = typed.form();
    let left = document_text(alloc, typed.left(), session.left())?;
    let comp = complement_text(alloc, typed, session.comp())?;
    let right = document_text(alloc, typed.right(), session.right())?;
    Ok(TreeTexts { left, comp, right })
}

// The text of a document. Its tree is read back as the document, so the ints of the document are i64.
fn document_text(alloc: Global, ty: &Ty, doc: &Doc) -> Result<String, AllocError>
    requires well_formed { IsTrue (is_well_formed (ty_tree ty.now)) }
    requires typed { IsTrue (has (ty_tree ty.now) (doc_tree doc.now)) }
    requires low { height (ty_tree ty.now) ≤ GREATEST_HEIGHT }
    ensures text { IfOk result
        (λ text. IsTreeText (tree_of_document (ty_tree ty.now) (doc_tree doc.now)) (string_bytes text)) }
    ensures ints { OnOk result (holds_i64s (doc_tree doc.now) ≡ true) }
{
    let tree = write_doc(alloc, ty, doc)?;
    text_of(alloc, &tree)
}

// The text of a complement that fits the lens.
fn complement_text(alloc: Global, typed: &Typed, comp: &Comp) -> Result<String, AllocError>
    requires fits { Fits (form_tree typed.now) (comp_tree comp.now) }
    ensures { IfOk result
        (λ text. IsTreeText (tree_of_complement (form_tree typed.now) (comp_tree comp.now)) (string_bytes text)) }
{
    // The proof needs how high the form is, which this call says.
    let _form = typed.form();
    let tree = write_comp(alloc, typed, comp)?;
    text_of(alloc, &tree)
}

// The text of a tree without floats that a reader of JSON reads back.
fn text_of(alloc: Global, tree: &Value) -> Result<String, AllocError>
    requires whole { has_float (view tree.now) ≡ false }
    requires low { depth (view tree.now) ≤ max_depth }
    ensures { IfOk result (λ text. IsTreeText (view tree.now) (string_bytes text)) }
{
    let text = tree.to_string(alloc)?;
    Ok(text)
}
