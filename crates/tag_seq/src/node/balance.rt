//! Two parts with a tag between them, as a balanced tree.

ghost use Rattle.std.specs.Prelude.{◌≡◌, ◌<◌, ◌≤◌, ◌+◌, ◌^◌, ◌++◌, ◌∷◌, length, max, IfOk};
ghost use Rattle.tag_seq.specs.Trees.{tags, height, DifferByAtMost, SettlesAt};
ghost use Rattle.tag_seq.specs.Totals.{AreTotals};

use crate::node::{TagNode, TagTree, fork};
use crate::total::Total;
use std::alloc::{AllocError, Global};

// A tag between two parts whose heights differ by at most two.
pub(crate) fn lean(
    alloc: Global,
    left: TagTree,
    before: Total,
    tag: u32,
    right: TagTree,
) -> Result<TagTree, AllocError>
    requires totals { AreTotals before.size before.counts (tags left) }
    requires near { DifferByAtMost 2 (height left) (height right) }
    requires small { length (tags left ++ tag ∷ tags right) < 2 ^ 64 }
    ensures tags { IfOk result (λ t. tags t ≡ tags left ++ tag ∷ tags right) }
    ensures height { IfOk result (λ t. SettlesAt (height left) (height right) (height t)) }
{
    let (low, high) = (left.height(), right.height());
    if high > low + 1 {
        lean_right(alloc, left, before, tag, &right)
    } else if low > high + 1 {
        lean_left(alloc, &left, before, tag, right)
    } else {
        fork(alloc, left, before, tag, right)
    }
}

// The same where the right part is two higher: its root comes to the top.
fn lean_right(
    alloc: Global,
    left: TagTree,
    before: Total,
    tag: u32,
    right: &TagTree,
) -> Result<TagTree, AllocError>
    requires totals { AreTotals before.size before.counts (tags left) }
    requires higher { height right.now ≡ height left + 2 }
    requires small { length (tags left ++ tag ∷ tags right.now) < 2 ^ 64 }
    ensures tags { IfOk result (λ t. tags t ≡ tags left ++ tag ∷ tags right.now) }
    ensures height { IfOk result (λ t. SettlesAt (height left) (height right.now) (height t)) }
{
    match right {
        TagTree::Empty => unreachable!(),
        TagTree::Node(node) => {
            let node: &TagNode = node;
            if node.left.height() > node.right.height() {
                let inner = Total::of_part(alloc, node.left_size, &node.left_counts)?;
                return lean_twice_right(
                    alloc,
                    left,
                    before,
                    tag,
                    &node.left,
                    inner,
                    node.tag,
                    &node.right,
                );
            }
            let front = before.and(alloc, tag, node.left_size, &node.left_counts)?;
            let inner = fork(alloc, left, before, tag, node.left.share()?)?;
            fork(alloc, inner, front, node.tag, node.right.share()?)
        }
    }
}

// The same where the inner part of the right one is higher than its outer part: the root of that comes to the top.
// `within` is the total of the inner part, and `next` the tag behind it.
fn lean_twice_right(
    alloc: Global,
    left: TagTree,
    before: Total,
    tag: u32,
    inner: &TagTree,
    within: Total,
    next: u32,
    outer: &TagTree,
) -> Result<TagTree, AllocError>
    requires totals { AreTotals before.size before.counts (tags left) }
    requires inner_totals { AreTotals within.size within.counts (tags inner.now) }
    requires same { height left ≡ height outer.now }
    requires higher { height inner.now ≡ height left + 1 }
    requires small { length (tags left ++ tag ∷ (tags inner.now ++ next ∷ tags outer.now)) < 2 ^ 64 }
    ensures tags { IfOk result (λ t. tags t ≡ tags left ++ tag ∷ (tags inner.now ++ next ∷ tags outer.now)) }
    ensures height { IfOk result (λ t. height t ≡ height left + 2) }
{
    match inner {
        TagTree::Empty => unreachable!(),
        TagTree::Node(node) => {
            let node: &TagNode = node;
            let front = before.and(alloc, tag, node.left_size, &node.left_counts)?;
            let middle = within.behind(alloc, node.left_size, &node.left_counts, node.tag)?;
            let low = fork(alloc, left, before, tag, node.left.share()?)?;
            let high = fork(alloc, node.right.share()?, middle, next, outer.share()?)?;
            let whole = fork(alloc, low, front, node.tag, high)?;
            Ok(whole)
        }
    }
}

// The same where the left part is two higher: its root comes to the top.
fn lean_left(
    alloc: Global,
    left: &TagTree,
    before: Total,
    tag: u32,
    right: TagTree,
) -> Result<TagTree, AllocError>
    requires totals { AreTotals before.size before.counts (tags left.now) }
    requires higher { height left.now ≡ height right + 2 }
    requires small { length (tags left.now ++ tag ∷ tags right) < 2 ^ 64 }
    ensures tags { IfOk result (λ t. tags t ≡ tags left.now ++ tag ∷ tags right) }
    ensures height { IfOk result (λ t. SettlesAt (height left.now) (height right) (height t)) }
{
    match left {
        TagTree::Empty => unreachable!(),
        TagTree::Node(node) => {
            let node: &TagNode = node;
            let front = Total::of_part(alloc, node.left_size, &node.left_counts)?;
            let middle = before.behind(alloc, node.left_size, &node.left_counts, node.tag)?;
            if node.right.height() > node.left.height() {
                return lean_twice_left(
                    alloc,
                    &node.left,
                    front,
                    node.tag,
                    &node.right,
                    middle,
                    tag,
                    right,
                );
            }
            let inner = fork(alloc, node.right.share()?, middle, tag, right)?;
            fork(alloc, node.left.share()?, front, node.tag, inner)
        }
    }
}

// The same where the inner part of the left one is higher than its outer part: the root of that comes to the top.
// `within` is the total of the inner part, and `next` the tag behind it.
fn lean_twice_left(
    alloc: Global,
    outer: &TagTree,
    before: Total,
    tag: u32,
    inner: &TagTree,
    within: Total,
    next: u32,
    right: TagTree,
) -> Result<TagTree, AllocError>
    requires totals { AreTotals before.size before.counts (tags outer.now) }
    requires inner_totals { AreTotals within.size within.counts (tags inner.now) }
    requires same { height right ≡ height outer.now }
    requires higher { height inner.now ≡ height right + 1 }
    requires small { length ((tags outer.now ++ tag ∷ tags inner.now) ++ next ∷ tags right) < 2 ^ 64 }
    ensures tags { IfOk result (λ t. tags t ≡ (tags outer.now ++ tag ∷ tags inner.now) ++ next ∷ tags right) }
    ensures height { IfOk result (λ t. height t ≡ height right + 2) }
{
    match inner {
        TagTree::Empty => unreachable!(),
        TagTree::Node(node) => {
            let node: &TagNode = node;
            let front = before.and(alloc, tag, node.left_size, &node.left_counts)?;
            let middle = within.behind(alloc, node.left_size, &node.left_counts, node.tag)?;
            let low = fork(alloc, outer.share()?, before, tag, node.left.share()?)?;
            let high = fork(alloc, node.right.share()?, middle, next, right)?;
            let whole = fork(alloc, low, front, node.tag, high)?;
            Ok(whole)
        }
    }
}
