//! Patterns of lists.

ghost use Rattle.std.specs.Prelude.{◌≡◌, IfOk, length, map, option_map};
ghost use Rattle.doc_values.specs.Typing.{is_list_of};
ghost use Rattle.law_images.specs.Patterns.{pattern_tree, patterns_tree, patterns_from};
ghost use Rattle.law_images.specs.PartImage.{holes, list_pattern, patterns_in_list};

use crate::owned::push;
use hold_shapes::{ListShape, Shape};
use law_images::{Pattern, Patterns};
use std::alloc::{AllocError, Global};
use texts::Twin;

/// A number of holes.
#[tactic(auto, using(crate::proofs::PartItems::hole_rules))]
pub(crate) fn holes(alloc: Global, count: u64) -> Result<Patterns, AllocError>
    ensures { IfOk result (λ ps. patterns_tree ps ≡ holes count) }
{
    let mut items = Vec::new(alloc);
    for _ in 0..count {
        push(&mut items, Pattern::Hole)?;
    }
    Patterns::from_vec(alloc, items)
}

/// The patterns of the items of a list with this number of items: holes if the pattern is a hole.
///
/// None if and only if no such list is in the pattern.
pub(crate) fn patterns_in_list(
    alloc: Global,
    count: u64,
    pattern: &Pattern,
) -> Result<Option<Patterns>, AllocError>
    ensures { IfOk result (λ r. option_map patterns_tree r ≡ patterns_in_list count (pattern_tree pattern.now)) }
{
    match pattern {
        Pattern::Hole => Ok(Some(holes(alloc, count)?)),
        Pattern::Hold(shape, patterns) => {
            if is_list_of(shape, count) && patterns.len() as u64 == count {
                Ok(Some(patterns.twin(alloc)?))
            } else {
                Ok(None)
            }
        }
        _ => Ok(None),
    }
}

// Whether the shape is that of a list with this number of items.
fn is_list_of(shape: &Shape, count: u64) -> bool
    ensures { result ≡ is_list_of shape.now count }
{
    match shape {
        Shape::List(list) => list.count == count,
        _ => false,
    }
}

/// A list of these patterns.
pub(crate) fn list_of(alloc: Global, items: Vec<Pattern>) -> Result<Pattern, AllocError>
    ensures { IfOk result
        (λ p. pattern_tree p ≡ list_pattern (length items.items) (patterns_from (map pattern_tree items.items))) }
{
    let count = items.len() as u64;
    let patterns = Patterns::from_vec(alloc, items)?;
    Ok(Pattern::Hold(Shape::List(ListShape { count }), patterns))
}
