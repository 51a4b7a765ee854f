//! The pattern of a document, which has no holes.

ghost use Rattle.std.specs.Prelude.{◌≡◌, ◌↔◌, IsTrue, IfOk};
ghost use Rattle.doc_values.specs.Documents.{DocTree, doc_tree, docs_tree};
ghost use Rattle.doc_values.specs.Types.{TyTree};
ghost use Rattle.doc_values.specs.Typing.{has};
ghost use Rattle.law_images.specs.Patterns.{Matches, is_of_type, pattern_tree, patterns_tree, pattern_of, patterns_of};

use crate::image_arm::tagged;
use crate::image_held::held;
use crate::owned::push;
use doc_values::{Doc, Docs};
use law_images::{Pattern, Patterns};
use std::alloc::{AllocError, Global};
use texts::Twin;

/// The document as a pattern without holes, which has it as its one document.
///
/// Fails only if memory runs out. It takes time in proportion to the document, and copies its texts.
#[tactic(auto, using(crate::proofs::WholePatterns::one_document))]
pub fn pattern_of(alloc: Global, document: &Doc) -> Result<Pattern, AllocError>
    ensures pattern { IfOk result (λ p. pattern_tree p ≡ pattern_of (doc_tree document.now)) }

    // This document is in it, and no other one.
    ensures one { IfOk result (λ p. (d : DocTree) → Matches (pattern_tree p) d ↔ (d ≡ doc_tree document.now)) }

    // It is of each type that the document has.
    ensures of_type { IfOk result (λ p. (t : TyTree)
        → IsTrue (has t (doc_tree document.now)) → IsTrue (is_of_type (pattern_tree p) t)) }
{
    whole(alloc, document)
}

#[cycle(whole)]
fn whole(alloc: Global, document: &Doc) -> Result<Pattern, AllocError>
    ensures { IfOk result (λ p. pattern_tree p ≡ pattern_of (doc_tree document.now)) }
{
    match document {
        Doc::Unit => Ok(Pattern::Unit),
        Doc::Bool(b) => Ok(Pattern::Bool(*b)),
        Doc::Int(n) => Ok(Pattern::Int(*n)),
        Doc::Text(text) => Ok(Pattern::Text(text.twin(alloc)?)),
        Doc::Pick(name) => Ok(Pattern::Pick(name.twin(alloc)?)),
        Doc::Rec(docs) => Ok(Pattern::Rec(whole_each(alloc, docs)?)),
        Doc::Alt(tag, content) => tagged(alloc, tag, whole(alloc, content)?),
        Doc::Hold(shape, docs) => held(alloc, shape, whole_each(alloc, docs)?),
    }
}

#[cycle(whole)]
fn whole_each(alloc: Global, docs: &Docs) -> Result<Patterns, AllocError>
    ensures { IfOk result (λ ps. patterns_tree ps ≡ patterns_of (docs_tree docs.now)) }
{
    let count = docs.len();
    let mut items = Vec::with_capacity(alloc, count)?;
    for i in 0..count {
        push(&mut items, whole(alloc, docs.get(i))?)?;
    }
    Patterns::from_vec(alloc, items)
}
