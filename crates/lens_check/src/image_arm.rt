//! The arms of alternatives, and the content of a tag.

ghost use Rattle.std.specs.Prelude.{◌≡◌, ◌<◌, IfOk, MatchOption, option_map};
ghost use Rattle.lens_forms.specs.Forms.{form_tree, arm_tree, arms_tree};
ghost use Rattle.lens_forms.specs.Measures.{form_parts, arms_parts};
ghost use Rattle.law_images.specs.PartImage.{content_pattern};
ghost use Rattle.law_images.specs.Patterns.{pattern_tree, alt_pattern};
ghost use Rattle.lens_check.specs.ImageParts.{first_arm};

use crate::owned::boxed;
use law_images::Pattern;
use lens_forms::{Form, FormArms};
use std::alloc::{AllocError, Global};
use texts::{Name, Twin};

// The first arm with a left tag. Its form has fewer parts than the arms.
#[tactic(auto, using(crate::proofs::ArmSearch::arm_rules))]
pub(crate) fn find_arm<'a>(arms: &'a FormArms, tag: &Name) -> Option<&'a (Name, Name, Form)>
    ensures found { option_map (λ a. arm_tree a.now) result ≡ first_arm (arms_tree arms.now) tag.now }
    ensures smaller { MatchOption result (Unit {0}) (λ a. form_parts (form_tree a.now.2) < arms_parts (arms_tree arms.now)) }
{
    for arm in arms.as_slice() {
        if tag.is_same(&arm.0) {
            return Some(arm);
        }
    }
    None
}

// The pattern of the content of a tag: that of a hole is the hole. None where no document with the tag is in the
// pattern.
pub(crate) fn content_pattern<'a>(pattern: &'a Pattern, tag: &Name) -> Option<&'a Pattern>
    ensures { option_map (λ p. pattern_tree p.now) result ≡ content_pattern tag.now (pattern_tree pattern.now) }
{
    match pattern {
        Pattern::Hole => Some(pattern),
        Pattern::Alt(other, content) => {
            if other.is_same(tag) {
                Some(content)
            } else {
                None
            }
        }
        _ => None,
    }
}

// A tag with the pattern of its content. Fails only if memory runs out.
pub(crate) fn tagged(alloc: Global, tag: &Name, content: Pattern) -> Result<Pattern, AllocError>
    ensures { IfOk result (λ p. pattern_tree p ≡ alt_pattern tag.now (pattern_tree content)) }
{
    let content = boxed(alloc, content)?;
    let tag = tag.twin(alloc)?;
    Ok(Pattern::Alt(tag, content))
}
