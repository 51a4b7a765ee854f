//! The first tags of a tree, those behind them, and two trees one after the other.

ghost use Rattle.std.specs.Prelude.{◌≡◌, ◌<◌, ◌≤◌, ◌+◌, ◌^◌, ◌++◌, ◌∷◌, [], length, take, drop, IfOk, MatchOption};
ghost use Rattle.tag_seq.specs.Trees.{tags};
ghost use Rattle.tag_seq.specs.Totals.{AreTotals};

use crate::node::joining::join;
use crate::node::{TagNode, TagTree};
use crate::total::Total;
use std::alloc::{AllocError, Global};

/// The first `count` tags of a tree.
#[tactic(auto, using(crate::proofs::Sides::side_rules))]
pub(crate) fn first(alloc: Global, tree: &TagTree, count: u64) -> Result<TagTree, AllocError>
    requires { count ≤ length (tags tree.now) }
    ensures { IfOk result (λ t. tags t ≡ take count (tags tree.now)) }
{
    match tree {
        TagTree::Empty => Ok(TagTree::Empty),
        TagTree::Node(node) => {
            let node: &TagNode = node;
            if count < node.left_size {
                return first(alloc, &node.left, count);
            }
            if count == node.left_size {
                return node.left.share();
            }
            let behind = first(alloc, &node.right, count - node.left_size - 1)?;
            let front = Total::of_part(alloc, node.left_size, &node.left_counts)?;
            let whole = join(alloc, &node.left, front, node.tag, &behind)?;
            Ok(whole)
        }
    }
}

/// The tags behind the first ones.
#[tactic(auto, using(crate::proofs::Sides::side_rules))]
pub(crate) fn rest(alloc: Global, tree: &TagTree, count: u64) -> Result<TagTree, AllocError>
    requires { count ≤ length (tags tree.now) }
    ensures { IfOk result (λ t. tags t ≡ drop count (tags tree.now)) }
{
    if count == 0 {
        return tree.share();
    }
    match tree {
        TagTree::Empty => Ok(TagTree::Empty),
        TagTree::Node(node) => {
            let node: &TagNode = node;
            if count > node.left_size {
                return rest(alloc, &node.right, count - node.left_size - 1);
            }
            let ahead = rest(alloc, &node.left, count)?;
            let front = ahead.total(alloc)?;
            let whole = join(alloc, &ahead, front, node.tag, &node.right)?;
            Ok(whole)
        }
    }
}

impl TagTree {
    /// The first tag, if there is one.
    pub(crate) fn first_tag(&self) -> Option<u32>
        ensures { MatchOption result (tags self.now ≡ []) (λ t. tags self.now ≡ t ∷ drop 1 (tags self.now)) }
    {
        match self {
            TagTree::Empty => None,
            TagTree::Node(node) => {
                let node: &TagNode = node;
                match node.left.first_tag() {
                    Some(tag) => Some(tag),
                    None => Some(node.tag),
                }
            }
        }
    }
}

/// The tags of one tree and then those of another.
pub(crate) fn concat(alloc: Global, left: &TagTree, right: &TagTree) -> Result<TagTree, AllocError>
    requires { length (tags left.now) + length (tags right.now) < 2 ^ 64 }
    ensures { IfOk result (λ t. tags t ≡ tags left.now ++ tags right.now) }
{
    match right.first_tag() {
        None => left.share(),
        Some(tag) => {
            let behind = rest(alloc, right, 1)?;
            let before = left.total(alloc)?;
            let whole = join(alloc, left, before, tag, &behind)?;
            Ok(whole)
        }
    }
}
