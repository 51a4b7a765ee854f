//! The compact text of a tree and of a document.

ghost use Rattle.std.specs.Prelude.{◌≡◌, ◌≤◌, true, false, Some, IfOk, string_bytes};
ghost use Rattle.serde_json.specs.View.{view};
ghost use Rattle.serde_json.specs.Data.{depth};
ghost use Rattle.serde_json.specs.Read.{read, max_depth};
ghost use Rattle.serde_json.specs.Written.{has_float, compact_text};
ghost use Rattle.doc_values.specs.Documents.{doc_tree};
ghost use Rattle.doc_values.specs.Types.{ty_tree, is_well_formed, height};
ghost use Rattle.doc_values.specs.Typing.{has};
ghost use Rattle.value_json.specs.DocumentJson.{tree_of_document};

use crate::write::write_doc;
use doc_values::{Doc, Ty};
use serde_json::Value;
use std::alloc::{AllocError, Global};

/// The text of a tree without floats, with no space between its parts.
///
/// Fails only if memory runs out.
pub fn write_compact(alloc: Global, tree: &Value) -> Result<String, AllocError>
    requires { has_float (view tree.now) ≡ false }

    ensures text { IfOk result (λ text. string_bytes text ≡ compact_text (view tree.now)) }

    // A reader of JSON gives the tree back, unless it nests too deep for it.
    ensures reads_back { IfOk result (λ text. depth (view tree.now) ≤ max_depth
        → read (string_bytes text) ≡ Some (view tree.now)) }
{
    tree.to_string(alloc)
}

/// The text of a document's tree, with no space between its parts.
///
/// The document has the type, and the type is well formed. Fails only if memory runs out.
pub fn write_doc_text(alloc: Global, ty: &Ty, doc: &Doc) -> Result<String, AllocError>
    requires well_formed { is_well_formed (ty_tree ty.now) ≡ true }
    requires typed { has (ty_tree ty.now) (doc_tree doc.now) ≡ true }

    ensures text { IfOk result (λ text. string_bytes text
        ≡ compact_text (tree_of_document (ty_tree ty.now) (doc_tree doc.now))) }

    // A reader of JSON gives the document's tree back, unless the type is too high for it.
    ensures reads_back { IfOk result (λ text. height (ty_tree ty.now) ≤ 64
        → read (string_bytes text) ≡ Some (tree_of_document (ty_tree ty.now) (doc_tree doc.now))) }
{
    let tree = write_doc(alloc, ty, doc)?;
    write_compact(alloc, &tree)
}
