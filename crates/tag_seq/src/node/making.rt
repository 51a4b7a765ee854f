//! Trees of given tags.

ghost use Rattle.std.specs.Prelude.{◌≡◌, replicate, IfOk};
ghost use Rattle.tag_seq.specs.Trees.{tags};

use crate::node::TagTree;
use crate::node::joining::join;
use crate::total::Total;
use std::alloc::{AllocError, Global};

/// A tree of these tags, in time linear in their number.
pub(crate) fn build(alloc: Global, list: &[u32]) -> Result<TagTree, AllocError>
    ensures { IfOk result (λ t. tags t ≡ list.now) }
{
    let len = list.len();
    if len == 0 {
        return Ok(TagTree::Empty);
    }
    let middle = len / 2;
    let left = build(alloc, &list[..middle])?;
    let right = build(alloc, &list[middle + 1..])?;
    let before = left.total(alloc)?;
    let whole = join(alloc, &left, before, list[middle], &right)?;
    Ok(whole)
}

/// A tree of `count` of one tag. Both parts of a node are the same tree, so that it takes as many nodes as the number
/// has binary digits, or twice as many.
pub(crate) fn repeat(alloc: Global, tag: u32, count: u64) -> Result<TagTree, AllocError>
    ensures { IfOk result (λ t. tags t ≡ replicate count tag) }
{
    if count == 0 {
        return Ok(TagTree::Empty);
    }
    let side = (count - 1) / 2;
    let part = repeat(alloc, tag, side)?;
    let before = Total::of_one(alloc, tag, side)?;
    let odd = join(alloc, &part, before, tag, &part)?;
    if side + side + 1 == count {
        return Ok(odd);
    }
    let before = Total::of_one(alloc, tag, count - 1)?;
    let even = join(alloc, &odd, before, tag, &TagTree::Empty)?;
    Ok(even)
}
