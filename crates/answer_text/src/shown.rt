//! What a program and a session show: types and trees.
ghost use Rattle.std.specs.Prelude.{◌≡◌, false, IfOk, IsTrue};
ghost use Rattle.serde_json.specs.View.{view};
ghost use Rattle.serde_json.specs.Written.{has_float};
ghost use Rattle.doc_values.specs.Documents.{doc_tree};
ghost use Rattle.doc_values.specs.Types.{ty_tree, is_well_formed};
ghost use Rattle.doc_values.specs.Typing.{has};
ghost use Rattle.value_json.specs.DocumentJson.{tree_of_document};
ghost use Rattle.lens_forms.specs.Forms.{form_tree};
ghost use Rattle.lens_core.specs.Complements.{comp_tree, Fits};
ghost use Rattle.complement_file.specs.ComplementJson.{tree_of_complement};
ghost use Rattle.answer_text.specs.Lines.{type_line, tree_line};

use crate::words::bytes_of;
use complement_file::write_comp;
use doc_values::{Doc, Ty};
use edit_journal::side_text;
use lens_core::Comp;
use lens_syntax::write_type;
use lens_types::Typed;
use serde_json::Value;
use std::alloc::{AllocError, Global};
use texts::{Bytes, Side};
use value_json::{write_compact, write_doc};

/// `left TYPE` or `right TYPE` and a line feed: the type of this side, in canonical text, which
/// shows the declared initial values. The only error is running out of memory.
pub fn type_line(alloc: Global, side: Side, ty: &Ty) -> Result<Bytes, AllocError>
    ensures line { IfOk result (λ line. line ≡ type_line side (ty_tree ty.now)) }
{
    let side = side_text(side);
    let ty = write_type(alloc, ty)?;
    let ty = ty.as_str();
    let line = format!(in alloc; "{side} {ty}\n")?;
    Ok(bytes_of(line))
}

/// The label, a space, the compact JSON of the tree and a line feed.
///
/// No number in the tree is a float. The only error is running out of memory.
pub fn tree_line(alloc: Global, label: &str, tree: &Value) -> Result<Bytes, AllocError>
    requires no_float { has_float (view tree.now) ≡ false }
    ensures line { IfOk result (λ line. line ≡ tree_line label.now (view tree.now)) }
{
    let json = write_compact(alloc, tree)?;
    let line = format!(in alloc; "{label} {json}\n")?;
    Ok(bytes_of(line))
}

/// The label, a space, the compact JSON of a document of the type, and a line feed. The only error is running out of
/// memory.
#[tactic(auto, using(value_json::proofs::TreeDepths::whole))]
pub fn document_line(alloc: Global, label: &str, ty: &Ty, doc: &Doc) -> Result<Bytes, AllocError>
    requires well_formed { IsTrue (is_well_formed (ty_tree ty.now)) }
    requires typed { IsTrue (has (ty_tree ty.now) (doc_tree doc.now)) }
    ensures { IfOk result (λ line. line
        ≡ tree_line label.now (tree_of_document (ty_tree ty.now) (doc_tree doc.now))) }
{
    let tree = write_doc(alloc, ty, doc)?;
    tree_line(alloc, label, &tree)
}

/// The label, a space, the compact JSON of a complement of the lens, and a line feed. The only error is running out of
/// memory.
#[tactic(auto, using(complement_file::proofs::Floats::whole))]
pub fn complement_line(
    alloc: Global,
    label: &str,
    typed: &Typed,
    comp: &Comp,
) -> Result<Bytes, AllocError>
    requires { Fits (form_tree typed.now) (comp_tree comp.now) }
    ensures { IfOk result (λ line. line
        ≡ tree_line label.now (tree_of_complement (form_tree typed.now) (comp_tree comp.now))) }
{
    let tree = write_comp(alloc, typed, comp)?;
    tree_line(alloc, label, &tree)
}
