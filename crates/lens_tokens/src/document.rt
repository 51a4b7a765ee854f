//! Reading the document that a text is.
ghost use Rattle.std.specs.Prelude.{◌≡◌, true, IfSome};
ghost use Rattle.doc_values.specs.Documents.{doc_tree};
ghost use Rattle.doc_values.specs.Types.{ty_tree};
ghost use Rattle.doc_values.specs.Typing.{has};
ghost use Rattle.lens_tokens.specs.Texts.{IsDocumentOf};

use crate::MOST_DEPTH;
use doc_tokens::take_doc;
use doc_values::{Doc, Ty};
use json::{Reader, Scratch};
use json_tokens::is_at_end;
use std::alloc::Global;

/// The document of the type that a text is the JSON of. `None` says nothing of the text.
///
/// The scratch may hold anything. Room in it is kept for the next text.
pub fn document_of_tokens(
    alloc: Global,
    ty: &Ty,
    bytes: &[u8],
    scratch: &mut Scratch,
) -> Option<Doc>
    ensures document { IfSome result (λ doc. IsDocumentOf (ty_tree ty.now) bytes.now (doc_tree doc)) }
    ensures typed { IfSome result (λ doc. has (ty_tree ty.now) (doc_tree doc) ≡ true) }
{
    let Ok(text) = std::str::from_utf8(bytes) else {
        return None;
    };
    let Ok(mut reader) = Reader::new(text, scratch) else {
        return None;
    };
    let doc = take_doc(alloc, ty, &mut reader, MOST_DEPTH)?;
    if !is_at_end(&mut reader) {
        return None;
    }
    Some(doc)
}
