//! Images through the forms that have no form inside: a bijection and a partition.

ghost use Rattle.std.specs.Prelude.{◌≡◌, None, Some, IfOk, MatchOption, option_map};
ghost use Rattle.doc_values.specs.Types.{fields_tree};
ghost use Rattle.lens_forms.specs.Forms.{form_part};
ghost use Rattle.lens_core.specs.Complements.{comp_tree};
ghost use Rattle.lens_core.specs.Sides.{near, far};
ghost use Rattle.lens_core.specs.Translation.{partner};
ghost use Rattle.law_images.specs.Image.{image, partner_pattern};
ghost use Rattle.law_images.specs.Patterns.{pattern_tree};
ghost use Rattle.lens_check.specs.ReadyComplements.{IsReady};

use crate::image_part::{joined_image, parted_image};
use doc_values::Fields;
use law_images::Pattern;
use lens_core::Comp;
use program_terms::Pairs;
use std::alloc::{AllocError, Global};
use texts::{Name, Side, Twin};

// The image of a pattern of a side through a bijection: a hole for a hole, else the partner of the member. None where
// the pattern has no member that has a partner. Fails only if memory runs out.
pub(crate) fn partner_pattern(
    alloc: Global,
    pairs: &Pairs,
    side: Side,
    pattern: &Pattern,
) -> Result<Option<Pattern>, AllocError>
    ensures { IfOk result (λ q. option_map pattern_tree q ≡ partner_pattern side pairs.now (pattern_tree pattern.now)) }
{
    match pattern {
        Pattern::Hole => Ok(Some(Pattern::Hole)),
        Pattern::Pick(member) => match partner_of(pairs, side, member) {
            Some(partner) => Ok(Some(Pattern::Pick(partner.twin(alloc)?))),
            None => Ok(None),
        },
        _ => Ok(None),
    }
}

// The image of a pattern of a side through the partition of these tags. Fails only if memory runs out.
pub(crate) fn part_image(
    alloc: Global,
    tags: &Fields,
    side: Side,
    comp: &Comp,
    pattern: &Pattern,
) -> Result<Option<Pattern>, AllocError>
    requires { IsReady (form_part (fields_tree tags.now)) (comp_tree comp.now) }
    ensures { IfOk result (λ q. option_map pattern_tree q
        ≡ image (form_part (fields_tree tags.now)) side (comp_tree comp.now) (pattern_tree pattern.now)) }
{
    let Comp::Tags(numbers) = comp else {
        return Ok(None);
    };
    match side {
        Side::Left => parted_image(alloc, tags, numbers, pattern),
        Side::Right => joined_image(alloc, tags, numbers, pattern),
    }
}

// The partner of a member of a side, in the first pair that has the member.
#[tactic(auto, using(lens_core::proofs::LeafSteps::partner_rules))]
fn partner_of<'a>(pairs: &'a Pairs, side: Side, member: &Name) -> Option<&'a Name>
    ensures { MatchOption result
        (partner side pairs.now member.now ≡ None)
        (λ name. partner side pairs.now member.now ≡ Some name.now) }
{
    for pair in pairs.as_slice() {
        if near(side, &pair.0, &pair.1).is_same(member) {
            return Some(far(side, &pair.0, &pair.1));
        }
    }
    None
}

// Of two names, that of the side.
pub(crate) fn near<'a>(side: Side, left: &'a Name, right: &'a Name) -> &'a Name
    ensures { result.now ≡ near side left.now right.now }
{
    match side {
        Side::Left => left,
        Side::Right => right,
    }
}

// Of two names, that of the other side.
pub(crate) fn far<'a>(side: Side, left: &'a Name, right: &'a Name) -> &'a Name
    ensures { result.now ≡ far side left.now right.now }
{
    match side {
        Side::Left => right,
        Side::Right => left,
    }
}
