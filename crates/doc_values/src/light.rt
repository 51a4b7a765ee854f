//! Documents that stand side by side: which do, and how one of them is replaced.

ghost use Rattle.std.specs.Prelude.{◌≡◌, ◌<◌, IfOk, map, length, slice_set};
ghost use Rattle.doc_values.specs.Documents.{doc_tree};

use crate::doc::Doc;
use std::alloc::{AllocError, Global};
use texts::twin_all;

// How many documents a block has at most.
const BLOCK: usize = 16;

/// Whether documents are to stand side by side in a block: a few that are all light. Only time and memory rest on it.
pub(crate) fn fit_a_block(docs: &[Doc]) -> bool {
    !docs.is_empty() && docs.len() <= BLOCK && docs.iter().all(is_light)
}

// Whether a document has no contents, and a short text if it has one, so that a copy of it costs little.
fn is_light(doc: &Doc) -> bool {
    match doc {
        Doc::Unit => true,
        Doc::Bool(_) => true,
        Doc::Int(_) => true,
        Doc::Text(text) => is_short(text.as_str()),
        Doc::Pick(name) => is_short(name.as_str()),
        Doc::Rec(_) => false,
        Doc::Alt(_, _) => false,
        Doc::Hold(_, _) => false,
    }
}

fn is_short(text: &str) -> bool {
    text.len() <= 64
}

/// Copies of documents, with the one at a place replaced. Fails only if memory runs out; the new one is then dropped.
#[tactic(auto, using(crate::proofs::Rules::block_rules))]
pub(crate) fn with_doc(
    alloc: Global,
    docs: &[Doc],
    place: usize,
    doc: Doc,
) -> Result<Vec<Doc>, AllocError>
    requires { place < length docs.now }
    ensures { IfOk result (λ v. map doc_tree v.items ≡ slice_set (map doc_tree docs.now) place (doc_tree doc)) }
{
    let mut copies = twin_all(alloc, docs)?;
    copies[place] = doc;
    Ok(copies)
}
