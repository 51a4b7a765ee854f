//! Two parts of any heights with some depths between them.

ghost use Rattle.std.specs.Prelude.{◌≡◌, ◌<◌, ◌≤◌, ◌+◌, ◌^◌, ◌++◌, length, max, IfOk};
ghost use Rattle.depth_seq.specs.Trees.{depths, height};

use crate::node::balance::lean;
use crate::node::{DepthNode, DepthTree, fork};
use std::alloc::{AllocError, Global};
use std::rc::Rc;

/// Some depths between two parts, at least one.
pub(crate) fn join(
    alloc: Global,
    left: &DepthTree,
    chunk: Rc<Vec<u64>>,
    right: &DepthTree,
) -> Result<DepthTree, AllocError>
    requires some { 0 < length chunk.value.items }
    requires small { length (depths left.now ++ (chunk.value.items ++ depths right.now)) < 2 ^ 64 }
    ensures { IfOk result (λ t. depths t ≡ depths left.now ++ (chunk.value.items ++ depths right.now)) }
{
    if left.height() > right.height() {
        join_to_higher_left(alloc, left, chunk, right)
    } else {
        join_to_higher_right(alloc, left, chunk, right)
    }
}

// The same where the left part is at least nearly as high: goes down its right edge.
#[tactic(auto, using(crate::proofs::Parts::part_rules))]
fn join_to_higher_left(
    alloc: Global,
    left: &DepthTree,
    chunk: Rc<Vec<u64>>,
    right: &DepthTree,
) -> Result<DepthTree, AllocError>
    requires some { 0 < length chunk.value.items }
    requires higher { height right.now ≤ height left.now + 1 }
    requires small { length (depths left.now ++ (chunk.value.items ++ depths right.now)) < 2 ^ 64 }
    ensures depths { IfOk result (λ t. depths t ≡ depths left.now ++ (chunk.value.items ++ depths right.now)) }
    ensures low { IfOk result (λ t. max (height left.now) (height right.now) ≤ height t) }
    ensures high { IfOk result (λ t. height t ≤ max (height left.now) (height right.now) + 1) }
{
    if left.height() <= right.height() + 1 {
        return fork(alloc, left.share()?, chunk, right.share()?);
    }
    match left {
        DepthTree::Empty => unreachable!(),
        DepthTree::Node(node) => {
            let node: &DepthNode = node;
            let behind = join_to_higher_left(alloc, &node.right, chunk, right)?;
            let whole = lean(alloc, node.left.share()?, node.chunk.clone()?, behind)?;
            Ok(whole)
        }
    }
}

// The same where the right part is at least nearly as high: goes down its left edge.
#[tactic(auto, using(crate::proofs::Parts::part_rules))]
fn join_to_higher_right(
    alloc: Global,
    left: &DepthTree,
    chunk: Rc<Vec<u64>>,
    right: &DepthTree,
) -> Result<DepthTree, AllocError>
    requires some { 0 < length chunk.value.items }
    requires higher { height left.now ≤ height right.now + 1 }
    requires small { length (depths left.now ++ (chunk.value.items ++ depths right.now)) < 2 ^ 64 }
    ensures depths { IfOk result (λ t. depths t ≡ depths left.now ++ (chunk.value.items ++ depths right.now)) }
    ensures low { IfOk result (λ t. max (height left.now) (height right.now) ≤ height t) }
    ensures high { IfOk result (λ t. height t ≤ max (height left.now) (height right.now) + 1) }
{
    if right.height() <= left.height() + 1 {
        return fork(alloc, left.share()?, chunk, right.share()?);
    }
    match right {
        DepthTree::Empty => unreachable!(),
        DepthTree::Node(node) => {
            let node: &DepthNode = node;
            let ahead = join_to_higher_right(alloc, left, chunk, &node.left)?;
            let whole = lean(alloc, ahead, node.chunk.clone()?, node.right.share()?)?;
            Ok(whole)
        }
    }
}
