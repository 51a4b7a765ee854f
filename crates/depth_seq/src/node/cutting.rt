//! The first depths of a tree, those behind them, and two trees one after the other.

ghost use Rattle.std.specs.Prelude.{◌≡◌, ◌<◌, ◌≤◌, ◌+◌, ◌^◌, ◌++◌, [], length, take, drop, IfOk, MatchOption};
ghost use Rattle.depth_seq.specs.Trees.{depths};

use crate::node::joining::join;
use crate::node::making::chunk_of;
use crate::node::{DepthNode, DepthTree};
use std::alloc::{AllocError, Global};
use std::rc::Rc;

/// The first `count` depths of a tree.
#[tactic(auto, using(crate::proofs::Parts::cut_rules))]
pub(crate) fn first(alloc: Global, tree: &DepthTree, count: usize) -> Result<DepthTree, AllocError>
    requires { count ≤ length (depths tree.now) }
    ensures { IfOk result (λ t. depths t ≡ take count (depths tree.now)) }
{
    if count == 0 {
        return Ok(DepthTree::Empty);
    }
    match tree {
        DepthTree::Empty => Ok(DepthTree::Empty),
        DepthTree::Node(node) => {
            let node: &DepthNode = node;
            if count <= node.left_size {
                return first(alloc, &node.left, count);
            }
            let inner = count - node.left_size;
            let size = node.chunk.len();
            if inner < size {
                let (front, _) = node.chunk.as_slice().split_at(inner);
                return join(
                    alloc,
                    &node.left,
                    chunk_of(alloc, front)?,
                    &DepthTree::Empty,
                );
            }
            let behind = first(alloc, &node.right, inner - size)?;
            let whole = join(alloc, &node.left, node.chunk.clone()?, &behind)?;
            Ok(whole)
        }
    }
}

/// The depths behind the first ones.
#[tactic(auto, using(crate::proofs::Parts::cut_rules))]
pub(crate) fn rest(alloc: Global, tree: &DepthTree, count: usize) -> Result<DepthTree, AllocError>
    requires { count ≤ length (depths tree.now) }
    ensures { IfOk result (λ t. depths t ≡ drop count (depths tree.now)) }
{
    if count == 0 {
        return tree.share();
    }
    match tree {
        DepthTree::Empty => Ok(DepthTree::Empty),
        DepthTree::Node(node) => {
            let node: &DepthNode = node;
            if count <= node.left_size {
                let ahead = rest(alloc, &node.left, count)?;
                let whole = join(alloc, &ahead, node.chunk.clone()?, &node.right)?;
                return Ok(whole);
            }
            let inner = count - node.left_size;
            let size = node.chunk.len();
            if inner < size {
                let (_, back) = node.chunk.as_slice().split_at(inner);
                return join(
                    alloc,
                    &DepthTree::Empty,
                    chunk_of(alloc, back)?,
                    &node.right,
                );
            }
            rest(alloc, &node.right, inner - size)
        }
    }
}

impl DepthTree {
    /// The first chunk, if there is one.
    #[tactic(auto, using(crate::proofs::Parts::cut_rules))]
    pub(crate) fn first_chunk(&self) -> Option<&Rc<Vec<u64>>>
        ensures { MatchOption result (depths self.now ≡ []) (λ c. (0 < length c.now.value.items)
            × (depths self.now ≡ c.now.value.items ++ drop (length c.now.value.items) (depths self.now))) }
    {
        match self {
            DepthTree::Empty => None,
            DepthTree::Node(node) => {
                let node: &DepthNode = node;
                match node.left.first_chunk() {
                    Some(chunk) => Some(chunk),
                    None => Some(&node.chunk),
                }
            }
        }
    }
}

/// The depths of one tree and then those of another.
#[tactic(auto, using(crate::proofs::Parts::cut_rules))]
pub(crate) fn concat(
    alloc: Global,
    left: &DepthTree,
    right: &DepthTree,
) -> Result<DepthTree, AllocError>
    requires { length (depths left.now) + length (depths right.now) < 2 ^ 64 }
    ensures { IfOk result (λ t. depths t ≡ depths left.now ++ depths right.now) }
{
    match right.first_chunk() {
        None => left.share(),
        Some(chunk) => {
            let behind = rest(alloc, right, chunk.len())?;
            let whole = join(alloc, left, chunk.clone()?, &behind)?;
            Ok(whole)
        }
    }
}
