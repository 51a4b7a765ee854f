//! The places of a container's pattern.

ghost use Rattle.std.specs.Prelude.{◌≡◌, IfOk};
ghost use Rattle.law_images.specs.Patterns.{pattern_tree, patterns_tree, hold_pattern};
ghost use Rattle.lens_check.specs.ImageParts.{has_shape, HasPlace, place_pattern};

use hold_shapes::Shape;
use law_images::{Pattern, Patterns};
use std::alloc::{AllocError, Global};
use texts::Twin;

// Whether a container of a shape, with this many places, is in the pattern.
#[tactic(auto, using(crate::proofs::HeldPatterns::shape_rules))]
pub(crate) fn has_shape(pattern: &Pattern, shape: &Shape, places: usize) -> bool
    ensures { result ≡ has_shape shape.now places (pattern_tree pattern.now) }
{
    match pattern {
        Pattern::Hole => true,
        Pattern::Hold(other, patterns) => other.is_same(shape) && patterns.len() == places,
        _ => false,
    }
}

// The pattern at a place of a container's pattern: that of a hole is the hole.
pub(crate) fn place_pattern(pattern: &Pattern, place: usize) -> &Pattern
    requires { HasPlace (pattern_tree pattern.now) place }
    ensures { pattern_tree result.now ≡ place_pattern (pattern_tree pattern.now) place }
{
    match pattern {
        Pattern::Hold(_, patterns) => patterns.get(place),
        _ => pattern,
    }
}

// A container of a shape, with these patterns of its contents. Fails only if memory runs out.
pub(crate) fn held(alloc: Global, shape: &Shape, contents: Patterns) -> Result<Pattern, AllocError>
    ensures { IfOk result (λ p. pattern_tree p ≡ hold_pattern shape.now (patterns_tree contents)) }
{
    let shape = shape.twin(alloc)?;
    Ok(Pattern::Hold(shape, contents))
}
