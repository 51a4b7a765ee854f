//! The image of a pattern through every form: one recursion over the form.

ghost use Rattle.std.specs.Prelude.{◌≡◌, IsTrue, IfOk, option_map};
ghost use Rattle.texts.specs.Keys.{has_name, is_rising};
ghost use Rattle.doc_values.specs.Types.{names_of};
ghost use Rattle.lens_forms.specs.Forms.{form_tree, rows_tree, arms_tree, form_then, form_rec, form_alt};
ghost use Rattle.lens_forms.specs.Typing.{is_typed};
ghost use Rattle.lens_core.specs.Complements.{comp_tree, Fits};
ghost use Rattle.lens_core.specs.Sides.{near, far, fields_on};
ghost use Rattle.law_images.specs.Image.{image, image_held, arm_pattern, patterns_by_name};
ghost use Rattle.law_images.specs.Patterns.{pattern_tree};
ghost use Rattle.lens_check.specs.ReadyComplements.{IsReady, AreReadyPlaces};

use crate::image_arm::{content_pattern, find_arm, tagged};
use crate::image_held::{has_shape, held, place_pattern};
use crate::image_leaf::{far, near, part_image, partner_pattern};
use crate::image_record::{SortedFields, near_pattern};
use crate::owned::push;
use law_images::{Pattern, Patterns};
use lens_core::Comp;
use lens_forms::{Form, FormArms, FormRow, FormRows};
use std::alloc::{AllocError, Global};
use texts::{Name, Side, Twin};

// The image of a pattern of a side through a typed form, with a complement that fits: the pattern of all documents of
// the other side that are consistent, with this complement, with a document in the pattern. None where there are none,
// if the pattern is of the type of its side. Fails only if memory runs out.
//
// It takes time in proportion to the pattern and the complement. In each record, every paired row passes over all rows,
// to find its near field by its place.
#[tactic(auto, using(crate::proofs::ReadyForms::fits_ready))]
pub(crate) fn image(
    alloc: Global,
    form: &Form,
    side: Side,
    comp: &Comp,
    pattern: &Pattern,
) -> Result<Option<Pattern>, AllocError>
    requires typed { IsTrue (is_typed (form_tree form.now)) }
    requires fits { Fits (form_tree form.now) (comp_tree comp.now) }
    ensures { IfOk result (λ q. option_map pattern_tree q
        ≡ image (form_tree form.now) side (comp_tree comp.now) (pattern_tree pattern.now)) }
{
    image_of(alloc, form, side, comp, pattern)
}

// The image of a pattern of a side through a form that is ready.
#[cycle(image)]
fn image_of(
    alloc: Global,
    form: &Form,
    side: Side,
    comp: &Comp,
    pattern: &Pattern,
) -> Result<Option<Pattern>, AllocError>
    requires { IsReady (form_tree form.now) (comp_tree comp.now) }
    ensures { IfOk result (λ q. option_map pattern_tree q
        ≡ image (form_tree form.now) side (comp_tree comp.now) (pattern_tree pattern.now)) }
{
    match form {
        Form::Id(_) => Ok(Some(pattern.twin(alloc)?)),
        Form::Bij(pairs, _) => partner_pattern(alloc, pairs, side, pattern),
        Form::Disc(_, _) => Ok(Some(Pattern::Hole)),
        Form::Then(first, second) => image_then(alloc, first, second, side, comp, pattern),
        Form::Rec(rows) => image_record(alloc, rows, side, comp, pattern),
        Form::Alt(arms) => image_alternatives(alloc, arms, side, comp, pattern),
        Form::Each(inner) => image_held(alloc, inner, side, comp, pattern),
        Form::Keyed(inner) => image_held(alloc, inner, side, comp, pattern),
        Form::Tree(inner) => image_held(alloc, inner, side, comp, pattern),
        Form::Part(tags) => part_image(alloc, tags, side, comp, pattern),
        Form::Inv(inner) => image_of(alloc, inner, side.other(), comp, pattern),
    }
}

// Through a composition: through the lens on the side of the pattern, and then through the other one.
#[cycle(image)]
#[tactic(auto, using(crate::proofs::ImageSteps::then_rules))]
fn image_then(
    alloc: Global,
    first: &Form,
    second: &Form,
    side: Side,
    comp: &Comp,
    pattern: &Pattern,
) -> Result<Option<Pattern>, AllocError>
    requires { IsReady (form_then (form_tree first.now) (form_tree second.now)) (comp_tree comp.now) }
    ensures { IfOk result (λ q. option_map pattern_tree q
        ≡ image (form_then (form_tree first.now) (form_tree second.now)) side (comp_tree comp.now)
        (pattern_tree pattern.now)) }
{
    let Comp::Then(first_comp, second_comp) = comp else {
        return Ok(None);
    };
    match side {
        Side::Left => {
            let Some(middle) = image_of(alloc, first, side, first_comp, pattern)? else {
                return Ok(None);
            };
            image_of(alloc, second, side, second_comp, &middle)
        }
        Side::Right => {
            let Some(middle) = image_of(alloc, second, side, second_comp, pattern)? else {
                return Ok(None);
            };
            image_of(alloc, first, side, first_comp, &middle)
        }
    }
}

// Through a record: the image of each paired row's near field at its far field, and a hole at each far field that is
// not paired.
#[cycle(image)]
#[tactic(auto, using(crate::proofs::ImageSteps::record_rules))]
fn image_record(
    alloc: Global,
    rows: &FormRows,
    side: Side,
    comp: &Comp,
    pattern: &Pattern,
) -> Result<Option<Pattern>, AllocError>
    requires { IsReady (form_rec (rows_tree rows.now)) (comp_tree comp.now) }
    ensures { IfOk result (λ q. option_map pattern_tree q
        ≡ image (form_rec (rows_tree rows.now)) side (comp_tree comp.now) (pattern_tree pattern.now)) }
{
    let Comp::Rec(comps) = comp else {
        return Ok(None);
    };
    let mut fields = SortedFields::new(alloc);
    let mut pairs = 0;
    for row in rows.as_slice() {
        match row {
            FormRow::Both(left, right, form) => {
                if pairs >= comps.len() {
                    return Ok(None);
                }
                let comp = comps.get(pairs);
                let name = near(side, left, right);
                let Some(image) = image_of_field(alloc, rows, form, side, comp, name, pattern)?
                else {
                    return Ok(None);
                };
                fields.put(alloc, far(side, left, right), image)?;
                pairs += 1;
            }
            FormRow::OnlyLeft(name, _) => fields.put_alone(alloc, name, Side::Left, side)?,
            FormRow::OnlyRight(name, _) => fields.put_alone(alloc, name, Side::Right, side)?,
        }
    }
    Ok(Some(Pattern::Rec(Patterns::from_vec(alloc, fields.patterns)?)))
}

// The image of the pattern at a field of a record, through the form of its row.
#[cycle(image)]
#[tactic(auto, using(crate::proofs::ImageSteps::field_rules))]
fn image_of_field(
    alloc: Global,
    rows: &FormRows,
    form: &Form,
    side: Side,
    comp: &Comp,
    name: &Name,
    pattern: &Pattern,
) -> Result<Option<Pattern>, AllocError>
    requires ready { IsReady (form_tree form.now) (comp_tree comp.now) }
    requires among { IsTrue (has_name name.now (names_of (fields_on side (rows_tree rows.now)))) }
    requires apart { IsTrue (is_rising (names_of (fields_on side (rows_tree rows.now)))) }
    ensures { IfOk result (λ q. option_map pattern_tree q
        ≡ image (form_tree form.now) side (comp_tree comp.now)
        (patterns_by_name (fields_on side (rows_tree rows.now)) (pattern_tree pattern.now) name.now)) }
{
    let hole = Pattern::Hole;
    let field = near_pattern(rows, side, name, pattern, &hole);
    image_of(alloc, form, side, comp, field)
}

// Through alternatives: through the arm of the complement's left tag.
#[cycle(image)]
#[tactic(auto, using(crate::proofs::ImageSteps::alternative_rules))]
fn image_alternatives(
    alloc: Global,
    arms: &FormArms,
    side: Side,
    comp: &Comp,
    pattern: &Pattern,
) -> Result<Option<Pattern>, AllocError>
    requires { IsReady (form_alt (arms_tree arms.now)) (comp_tree comp.now) }
    ensures { IfOk result (λ q. option_map pattern_tree q
        ≡ image (form_alt (arms_tree arms.now)) side (comp_tree comp.now) (pattern_tree pattern.now)) }
{
    let Comp::Alt(tag, part) = comp else {
        return Ok(None);
    };
    match find_arm(arms, tag) {
        Some(arm) => image_arm(alloc, arm, side, part, pattern),
        None => Ok(None),
    }
}

// Through one arm: the image of the content of its near tag, under its far tag.
#[cycle(image)]
#[tactic(auto, using(crate::proofs::ImageSteps::arm_rules))]
fn image_arm(
    alloc: Global,
    arm: &(Name, Name, Form),
    side: Side,
    comp: &Comp,
    pattern: &Pattern,
) -> Result<Option<Pattern>, AllocError>
    requires { IsReady (form_tree arm.now.2) (comp_tree comp.now) }
    ensures { IfOk result (λ q. option_map pattern_tree q
        ≡ arm_pattern (near side arm.now.0 arm.now.1) (far side arm.now.0 arm.now.1)
        (image (form_tree arm.now.2) side (comp_tree comp.now)) (pattern_tree pattern.now)) }
{
    let Some(content) = content_pattern(pattern, near(side, &arm.0, &arm.1)) else {
        return Ok(None);
    };
    match image_of(alloc, &arm.2, side, comp, content)? {
        Some(image) => Ok(Some(tagged(alloc, far(side, &arm.0, &arm.1), image)?)),
        None => Ok(None),
    }
}

// Through the map of a form over a container: a container of the complement's shape, with the image at each place.
#[cycle(image)]
#[tactic(auto, using(crate::proofs::ImageSteps::held_rules))]
fn image_held(
    alloc: Global,
    inner: &Form,
    side: Side,
    comp: &Comp,
    pattern: &Pattern,
) -> Result<Option<Pattern>, AllocError>
    requires { AreReadyPlaces (IsReady (form_tree inner.now)) (comp_tree comp.now) }
    ensures { IfOk result (λ q. option_map pattern_tree q
        ≡ image_held (image (form_tree inner.now) side) (comp_tree comp.now) (pattern_tree pattern.now)) }
{
    let Comp::Hold(shape, comps) = comp else {
        return Ok(None);
    };
    if !has_shape(pattern, shape, comps.len()) {
        return Ok(None);
    }
    let mut images = Vec::new(alloc);
    for place in 0..comps.len() {
        let near = place_pattern(pattern, place);
        match image_of(alloc, inner, side, comps.get(place), near)? {
            Some(image) => push(&mut images, image)?,
            None => return Ok(None),
        }
    }
    let images = Patterns::from_vec(alloc, images)?;
    Ok(Some(held(alloc, shape, images)?))
}
