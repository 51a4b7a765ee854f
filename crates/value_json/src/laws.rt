//! Laws of documents and their trees.
//!
//! Each function here does nothing: its clauses are the laws, which other crates rely on.

ghost use Rattle.std.specs.Prelude.{◌≡◌, ◌*◌, ◌<◌, true, false, Some};
ghost use Rattle.serde_json.specs.Data.{Data, depth};
ghost use Rattle.serde_json.specs.Written.{has_float};
ghost use Rattle.doc_values.specs.Documents.{DocTree};
ghost use Rattle.doc_values.specs.Types.{TyTree, height};
ghost use Rattle.doc_values.specs.Typing.{has};
ghost use Rattle.value_json.specs.DocumentJson.{tree_of_document, document_of, holds_i64s};

/// Two documents of one type never have the same tree.
pub fn trees_differ()
    ensures { (ty : TyTree) (one other : DocTree) → has ty one ≡ true → has ty other ≡ true
        → tree_of_document ty one ≡ tree_of_document ty other → one ≡ other }
{}

/// Reading a tree and writing it are inverse.
pub fn reading_inverts_writing()
    // A document whose ints are i64 is what its tree reads as.
    ensures reads_back { (ty : TyTree) (doc : DocTree) → has ty doc ≡ true → holds_i64s doc ≡ true
        → document_of ty (tree_of_document ty doc) ≡ Some doc }

    // What a tree reads as has the type, has i64 ints, and has this tree.
    ensures writes_back { (ty : TyTree) (tree : Data) (doc : DocTree) → document_of ty tree ≡ Some doc
        → (has ty doc ≡ true) × (holds_i64s doc ≡ true) × (tree_of_document ty doc ≡ tree) }
{}

/// The tree of a document has no float, and nests less than twice as deep as its type is high.
pub fn trees_are_shallow()
    ensures no_float { (ty : TyTree) (doc : DocTree) → has_float (tree_of_document ty doc) ≡ false }
    ensures nests { (ty : TyTree) (doc : DocTree) → depth (tree_of_document ty doc) < 2 * height ty }
{}
