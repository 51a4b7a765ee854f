//! Whether a document is in a pattern.

ghost use Rattle.std.specs.Prelude.{◌≡◌, ◌↔◌, IsTrue};
ghost use Rattle.doc_values.specs.Documents.{doc_tree, docs_tree};
ghost use Rattle.law_images.specs.Patterns.{pattern_tree, patterns_tree, Matches};
ghost use Rattle.law_images.specs.Image.{is_same_shape};
ghost use Rattle.lens_check.specs.MatchTest.{is_match, match_each};

use doc_values::{Doc, Docs};
use hold_shapes::Shape;
use law_images::{Pattern, Patterns};

/// Whether the document is in the pattern: it differs from the pattern only where the pattern has holes. Nothing is
/// said of its type.
///
/// Does not allocate. It takes time in proportion to the pattern.
#[tactic(auto, using(crate::proofs::MatchTests::match_test))]
pub fn matches(pattern: &Pattern, document: &Doc) -> bool
    ensures { IsTrue result ↔ Matches (pattern_tree pattern.now) (doc_tree document.now) }
{
    is_match(pattern, document)
}

#[cycle(is_match)]
fn is_match(pattern: &Pattern, document: &Doc) -> bool
    ensures { result ≡ is_match (pattern_tree pattern.now) (doc_tree document.now) }
{
    match (pattern, document) {
        (Pattern::Hole, _) => true,
        (Pattern::Unit, Doc::Unit) => true,
        (Pattern::Bool(a), Doc::Bool(b)) => *a == *b,
        (Pattern::Int(a), Doc::Int(b)) => *a == *b,
        (Pattern::Text(a), Doc::Text(b)) => a.is_same(b),
        (Pattern::Pick(a), Doc::Pick(b)) => a.is_same(b),
        (Pattern::Rec(patterns), Doc::Rec(docs)) => match_each(patterns, docs),
        (Pattern::Alt(a, inner), Doc::Alt(b, content)) => a.is_same(b) && is_match(inner, content),
        (Pattern::Hold(a, patterns), Doc::Hold(b, docs)) => {
            is_same_shape(a, b) && match_each(patterns, docs)
        }
        _ => false,
    }
}

// As many documents as patterns, each in its pattern.
#[cycle(is_match)]
fn match_each(patterns: &Patterns, docs: &Docs) -> bool
    ensures { result ≡ match_each (patterns_tree patterns.now) (docs_tree docs.now) }
{
    if patterns.len() != docs.len() {
        return false;
    }
    for i in 0..patterns.len() {
        if !is_match(patterns.get(i), docs.get(i)) {
            return false;
        }
    }
    true
}

#[tactic(auto, using(crate::proofs::MatchTests::same_shape_test))]
fn is_same_shape(left: &Shape, right: &Shape) -> bool
    ensures { result ≡ is_same_shape left.now right.now }
{
    left.is_same(right)
}
