//! Another tag at one place of a tree.

ghost use Rattle.std.specs.Prelude.{◌≡◌, ◌<◌, ◌≤◌, ◌+◌, ◌^◌, ℕ, length, slice_index, slice_set, IfOk};
ghost use Rattle.tag_seq.specs.Tags.{one_if_same};
ghost use Rattle.tag_seq.specs.Numbers.{number};
ghost use Rattle.tag_seq.specs.Trees.{tags, height};

use crate::counts::{Counts, Measure};
use crate::node::{TagNode, TagTree, fork};
use crate::total::Total;
use std::alloc::{AllocError, Global};

/// A tree with another tag at a place, and the tag that stood there.
#[derive(Drop)]
pub(crate) struct Exchange {
    pub(crate) tree: TagTree,
    pub(crate) old: u32,
}

/// The tags with another one at a place. The tree keeps its form.
#[tactic(auto, using(crate::proofs::Sides::side_rules))]
pub(crate) fn set(alloc: Global, tree: &TagTree, at: u64, tag: u32) -> Result<Exchange, AllocError>
    requires { at < length (tags tree.now) }
    ensures tags { IfOk result (λ r. tags r.tree ≡ slice_set (tags tree.now) at tag) }
    ensures height { IfOk result (λ r. height r.tree ≡ height tree.now) }
    ensures old { IfOk result (λ r. r.old ≡ slice_index (tags tree.now) at) }
{
    match tree {
        TagTree::Empty => unreachable!(),
        TagTree::Node(node) => {
            let node: &TagNode = node;
            if at < node.left_size {
                let Exchange { tree, old } = set(alloc, &node.left, at, tag)?;
                let front = total_after(alloc, node.left_size, &node.left_counts, old, tag)?;
                let whole = fork(alloc, tree, front, node.tag, node.right.share()?)?;
                return Ok(Exchange { tree: whole, old });
            }
            let front = Total::of_part(alloc, node.left_size, &node.left_counts)?;
            if at == node.left_size {
                let whole = fork(alloc, node.left.share()?, front, tag, node.right.share()?)?;
                return Ok(Exchange {
                    tree: whole,
                    old: node.tag,
                });
            }
            let Exchange { tree, old } = set(alloc, &node.right, at - node.left_size - 1, tag)?;
            let whole = fork(alloc, node.left.share()?, front, node.tag, tree)?;
            Ok(Exchange { tree: whole, old })
        }
    }
}

// The total of a part once one of its tags is another one.
fn total_after(
    alloc: Global,
    size: u64,
    counts: &Counts,
    old: u32,
    tag: u32,
) -> Result<Total, AllocError>
    requires there { (t : ℕ) → one_if_same old t ≤ number t counts.now }
    requires fits { (t : ℕ) → number t counts.now ≤ size }
    requires small { size + 1 < 2 ^ 64 }
    ensures size { IfOk result (λ r. r.size ≡ size) }
    ensures each { IfOk result (λ r. (t : ℕ) → number t r.counts + one_if_same old t
        ≡ number t counts.now + one_if_same tag t) }
{
    let removed = Counts::of_one(alloc, old, 1)?;
    let added = Counts::of_one(alloc, tag, 1)?;
    let less = counts.minus(alloc, &removed)?;
    let counts = less.plus(alloc, &added)?;
    Ok(Total { size, counts })
}
