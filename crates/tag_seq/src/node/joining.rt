//! Two parts of any heights with a tag between them, and two parts one after the other.

ghost use Rattle.std.specs.Prelude.{◌≡◌, ◌<◌, ◌≤◌, ◌+◌, ◌^◌, ◌++◌, ◌∷◌, length, max, IfOk};
ghost use Rattle.tag_seq.specs.Trees.{tags, height};
ghost use Rattle.tag_seq.specs.Totals.{AreTotals};

use crate::node::balance::lean;
use crate::node::{TagNode, TagTree, fork};
use crate::total::Total;
use std::alloc::{AllocError, Global};

/// A tag between two parts. `before` is the total of the left part.
pub(crate) fn join(
    alloc: Global,
    left: &TagTree,
    before: Total,
    tag: u32,
    right: &TagTree,
) -> Result<TagTree, AllocError>
    requires totals { AreTotals before.size before.counts (tags left.now) }
    requires small { length (tags left.now ++ tag ∷ tags right.now) < 2 ^ 64 }
    ensures { IfOk result (λ t. tags t ≡ tags left.now ++ tag ∷ tags right.now) }
{
    if left.height() > right.height() {
        join_to_higher_left(alloc, left, before, tag, right)
    } else {
        join_to_higher_right(alloc, left, &before, tag, right)
    }
}

// The same where the left part is at least nearly as high: goes down its right edge.
fn join_to_higher_left(
    alloc: Global,
    left: &TagTree,
    before: Total,
    tag: u32,
    right: &TagTree,
) -> Result<TagTree, AllocError>
    requires totals { AreTotals before.size before.counts (tags left.now) }
    requires higher { height right.now ≤ height left.now + 1 }
    requires small { length (tags left.now ++ tag ∷ tags right.now) < 2 ^ 64 }
    ensures tags { IfOk result (λ t. tags t ≡ tags left.now ++ tag ∷ tags right.now) }
    ensures low { IfOk result (λ t. max (height left.now) (height right.now) ≤ height t) }
    ensures high { IfOk result (λ t. height t ≤ max (height left.now) (height right.now) + 1) }
{
    if left.height() <= right.height() + 1 {
        return fork(alloc, left.share()?, before, tag, right.share()?);
    }
    match left {
        TagTree::Empty => unreachable!(),
        TagTree::Node(node) => {
            let node: &TagNode = node;
            let middle = before.behind(alloc, node.left_size, &node.left_counts, node.tag)?;
            let behind = join_to_higher_left(alloc, &node.right, middle, tag, right)?;
            let front = Total::of_part(alloc, node.left_size, &node.left_counts)?;
            let whole = lean(alloc, node.left.share()?, front, node.tag, behind)?;
            Ok(whole)
        }
    }
}

// The same where the right part is at least nearly as high: goes down its left edge.
fn join_to_higher_right(
    alloc: Global,
    left: &TagTree,
    before: &Total,
    tag: u32,
    right: &TagTree,
) -> Result<TagTree, AllocError>
    requires totals { AreTotals before.now.size before.now.counts (tags left.now) }
    requires higher { height left.now ≤ height right.now + 1 }
    requires small { length (tags left.now ++ tag ∷ tags right.now) < 2 ^ 64 }
    ensures tags { IfOk result (λ t. tags t ≡ tags left.now ++ tag ∷ tags right.now) }
    ensures low { IfOk result (λ t. max (height left.now) (height right.now) ≤ height t) }
    ensures high { IfOk result (λ t. height t ≤ max (height left.now) (height right.now) + 1) }
{
    if right.height() <= left.height() + 1 {
        let front = Total::of_part(alloc, before.size, &before.counts)?;
        return fork(alloc, left.share()?, front, tag, right.share()?);
    }
    match right {
        TagTree::Empty => unreachable!(),
        TagTree::Node(node) => {
            let node: &TagNode = node;
            let front = before.and(alloc, tag, node.left_size, &node.left_counts)?;
            let ahead = join_to_higher_right(alloc, left, before, tag, &node.left)?;
            let whole = lean(alloc, ahead, front, node.tag, node.right.share()?)?;
            Ok(whole)
        }
    }
}
