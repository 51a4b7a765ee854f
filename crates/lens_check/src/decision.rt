//! Deciding consistency, by the image of the left document.

ghost use Rattle.std.specs.Prelude.{◌≡◌, ◌↔◌, false, IsTrue, IfOk, MatchOption, option_map};
ghost use Rattle.texts.specs.declared.side.Side.TheVariants.{Left};
ghost use Rattle.doc_values.specs.Documents.{doc_tree};
ghost use Rattle.lens_forms.specs.Forms.{form_tree};
ghost use Rattle.lens_core.specs.Sides.{type_on};
ghost use Rattle.lens_core.specs.Complements.{comp_tree, Fits};
ghost use Rattle.lens_core.specs.Consistency.{IsConsistent};
ghost use Rattle.law_images.specs.Patterns.{pattern_tree, Matches, is_of_type};
ghost use Rattle.law_images.specs.Image.{image};
ghost use Rattle.law_images.specs.ImageLaws.{IsExactImage};
ghost use Rattle.lens_check.specs.TypedTriples.{AreTyped};

use crate::fit::conforms;
use crate::images::image as image_of_form;
use crate::membership::matches;
use crate::whole::pattern_of;
use doc_values::Doc;
use law_images::Pattern;
use lens_core::Comp;
use lens_types::Typed;
use std::alloc::{AllocError, Global};
use texts::Side;

/// Whether the left document, the complement and the right document are consistent. It is asked of any three: documents
/// of other types, and complements that do not fit, are not consistent.
///
/// Fails only if memory runs out. For one lens, the time grows with the left document and the complement; in a
/// partition, with the number of items times its logarithm. Between lenses, it grows with the square of the number of a
/// record's rows and of a partition's tags.
#[tactic(auto, using(crate::proofs::Decisions::decision_rules))]
pub fn consistent(
    alloc: Global,
    typed: &Typed,
    left: &Doc,
    comp: &Comp,
    right: &Doc,
) -> Result<bool, AllocError>
    ensures { IfOk result (λ b. IsTrue b
        ↔ IsConsistent (form_tree typed.now) (doc_tree left.now) (comp_tree comp.now) (doc_tree right.now)) }
{
    // The proof of the second branch needs that the form is typed, which this call says.
    let _form = typed.form();
    if are_typed(typed, left, comp, right) {
        is_reached(alloc, typed, left, comp, right)
    } else {
        Ok(false)
    }
}

// Whether both documents have their types and the complement fits.
#[tactic(auto, using(crate::proofs::Decisions::typed_test))]
fn are_typed(typed: &Typed, left: &Doc, comp: &Comp, right: &Doc) -> bool
    ensures { IsTrue result ↔ AreTyped (form_tree typed.now) (doc_tree left.now) (comp_tree comp.now)
        (doc_tree right.now) }
{
    left.has_type(typed.left()) && conforms(typed, comp) && right.has_type(typed.right())
}

// Whether the right document is in the image of the left one.
#[tactic(auto, using(crate::proofs::Decisions::decision_rules))]
fn is_reached(
    alloc: Global,
    typed: &Typed,
    left: &Doc,
    comp: &Comp,
    right: &Doc,
) -> Result<bool, AllocError>
    requires { AreTyped (form_tree typed.now) (doc_tree left.now) (comp_tree comp.now) (doc_tree right.now) }
    ensures { IfOk result (λ b. IsTrue b
        ↔ IsConsistent (form_tree typed.now) (doc_tree left.now) (comp_tree comp.now) (doc_tree right.now)) }
{
    let pattern = pattern_of(alloc, left)?;
    let reached = image_of_form(alloc, typed.form(), Side::Left, comp, &pattern)?;
    Ok(is_in(reached, right))
}

// Whether the document is in an image, where there is one.
fn is_in(image: Option<Pattern>, document: &Doc) -> bool
    ensures { MatchOption image (result ≡ false) (λ p. IsTrue result ↔ Matches (pattern_tree p) (doc_tree document.now)) }
{
    match image {
        Some(pattern) => matches(&pattern, document),
        None => false,
    }
}

/// The image of a pattern of one side: the pattern of all documents of the other side that are consistent, with this
/// complement, with some document in the given pattern. None if and only if there is no such document.
///
/// The complement fits the form, and the pattern is of the type of its side.
///
/// Fails only if memory runs out. The time grows as that of [`consistent`], with the pattern in place of the document.
#[tactic(auto, using(crate::proofs::Decisions::decision_rules))]
pub fn image(
    alloc: Global,
    typed: &Typed,
    side: Side,
    comp: &Comp,
    pattern: &Pattern,
) -> Result<Option<Pattern>, AllocError>
    requires fits { Fits (form_tree typed.now) (comp_tree comp.now) }
    requires of_type { IsTrue (is_of_type (pattern_tree pattern.now) (type_on side (form_tree typed.now))) }

    ensures image { IfOk result (λ q. option_map pattern_tree q
        ≡ image (form_tree typed.now) side (comp_tree comp.now) (pattern_tree pattern.now)) }

    // It has exactly the documents that are reached.
    ensures exact { IfOk result (λ q.
        IsExactImage (form_tree typed.now) side (comp_tree comp.now) (pattern_tree pattern.now)
        (option_map pattern_tree q)) }
{
    image_of_form(alloc, typed.form(), side, comp, pattern)
}
