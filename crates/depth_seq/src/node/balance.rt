//! Two parts with some depths between them, as a balanced tree.

ghost use Rattle.std.specs.Prelude.{◌≡◌, ◌<◌, ◌≤◌, ◌+◌, ◌^◌, ◌++◌, length, max, IfOk};
ghost use Rattle.depth_seq.specs.Trees.{depths, height, DifferByAtMost, SettlesAt};

use crate::node::{DepthNode, DepthTree, fork};
use std::alloc::{AllocError, Global};
use std::rc::Rc;

// Some depths between two parts whose heights differ by at most two.
pub(crate) fn lean(
    alloc: Global,
    left: DepthTree,
    chunk: Rc<Vec<u64>>,
    right: DepthTree,
) -> Result<DepthTree, AllocError>
    requires some { 0 < length chunk.value.items }
    requires near { DifferByAtMost 2 (height left) (height right) }
    requires small { length (depths left ++ (chunk.value.items ++ depths right)) < 2 ^ 64 }
    ensures depths { IfOk result (λ t. depths t ≡ depths left ++ (chunk.value.items ++ depths right)) }
    ensures height { IfOk result (λ t. SettlesAt (height left) (height right) (height t)) }
{
    let (low, high) = (left.height(), right.height());
    if high > low + 1 {
        lean_right(alloc, left, chunk, &right)
    } else if low > high + 1 {
        lean_left(alloc, &left, chunk, right)
    } else {
        fork(alloc, left, chunk, right)
    }
}

// The same where the right part is two higher: its root comes to the top.
#[tactic(auto, using(crate::proofs::Parts::part_rules))]
fn lean_right(
    alloc: Global,
    left: DepthTree,
    chunk: Rc<Vec<u64>>,
    right: &DepthTree,
) -> Result<DepthTree, AllocError>
    requires some { 0 < length chunk.value.items }
    requires higher { height right.now ≡ height left + 2 }
    requires small { length (depths left ++ (chunk.value.items ++ depths right.now)) < 2 ^ 64 }
    ensures depths { IfOk result (λ t. depths t ≡ depths left ++ (chunk.value.items ++ depths right.now)) }
    ensures height { IfOk result (λ t. SettlesAt (height left) (height right.now) (height t)) }
{
    match right {
        DepthTree::Empty => unreachable!(),
        DepthTree::Node(node) => {
            let node: &DepthNode = node;
            if node.left.height() > node.right.height() {
                let next = node.chunk.clone()?;
                return lean_twice_right(alloc, left, chunk, &node.left, next, &node.right);
            }
            let inner = fork(alloc, left, chunk, node.left.share()?)?;
            let whole = fork(alloc, inner, node.chunk.clone()?, node.right.share()?)?;
            Ok(whole)
        }
    }
}

// The same where the inner part of the right one is higher than its outer part: the root of that comes to the top.
// `next` are the depths behind the inner part.
#[tactic(auto, using(crate::proofs::Parts::part_rules))]
fn lean_twice_right(
    alloc: Global,
    left: DepthTree,
    chunk: Rc<Vec<u64>>,
    inner: &DepthTree,
    next: Rc<Vec<u64>>,
    outer: &DepthTree,
) -> Result<DepthTree, AllocError>
    requires some { 0 < length chunk.value.items }
    requires next_some { 0 < length next.value.items }
    requires same { height left ≡ height outer.now }
    requires higher { height inner.now ≡ height left + 1 }
    requires small { length
        (depths left ++ (chunk.value.items ++ (depths inner.now ++ (next.value.items ++ depths outer.now)))) < 2 ^ 64 }
    ensures depths { IfOk result
        (λ t. depths t
        ≡ depths left ++ (chunk.value.items ++ (depths inner.now ++ (next.value.items ++ depths outer.now)))) }
    ensures height { IfOk result (λ t. height t ≡ height left + 2) }
{
    match inner {
        DepthTree::Empty => unreachable!(),
        DepthTree::Node(node) => {
            let node: &DepthNode = node;
            let low = fork(alloc, left, chunk, node.left.share()?)?;
            let high = fork(alloc, node.right.share()?, next, outer.share()?)?;
            let whole = fork(alloc, low, node.chunk.clone()?, high)?;
            Ok(whole)
        }
    }
}

// The same where the left part is two higher: its root comes to the top.
#[tactic(auto, using(crate::proofs::Parts::part_rules))]
fn lean_left(
    alloc: Global,
    left: &DepthTree,
    chunk: Rc<Vec<u64>>,
    right: DepthTree,
) -> Result<DepthTree, AllocError>
    requires some { 0 < length chunk.value.items }
    requires higher { height left.now ≡ height right + 2 }
    requires small { length (depths left.now ++ (chunk.value.items ++ depths right)) < 2 ^ 64 }
    ensures depths { IfOk result (λ t. depths t ≡ depths left.now ++ (chunk.value.items ++ depths right)) }
    ensures height { IfOk result (λ t. SettlesAt (height left.now) (height right) (height t)) }
{
    match left {
        DepthTree::Empty => unreachable!(),
        DepthTree::Node(node) => {
            let node: &DepthNode = node;
            if node.right.height() > node.left.height() {
                let before = node.chunk.clone()?;
                return lean_twice_left(alloc, &node.left, before, &node.right, chunk, right);
            }
            let inner = fork(alloc, node.right.share()?, chunk, right)?;
            let whole = fork(alloc, node.left.share()?, node.chunk.clone()?, inner)?;
            Ok(whole)
        }
    }
}

// The same where the inner part of the left one is higher than its outer part: the root of that comes to the top.
// `before` are the depths before the inner part.
#[tactic(auto, using(crate::proofs::Parts::part_rules))]
fn lean_twice_left(
    alloc: Global,
    outer: &DepthTree,
    before: Rc<Vec<u64>>,
    inner: &DepthTree,
    chunk: Rc<Vec<u64>>,
    right: DepthTree,
) -> Result<DepthTree, AllocError>
    requires before_some { 0 < length before.value.items }
    requires some { 0 < length chunk.value.items }
    requires same { height right ≡ height outer.now }
    requires higher { height inner.now ≡ height right + 1 }
    requires small { length
        (depths outer.now ++ (before.value.items ++ (depths inner.now ++ (chunk.value.items ++ depths right))))
        < 2 ^ 64 }
    ensures depths { IfOk result
        (λ t. depths t
        ≡ depths outer.now ++ (before.value.items ++ (depths inner.now ++ (chunk.value.items ++ depths right)))) }
    ensures height { IfOk result (λ t. height t ≡ height right + 2) }
{
    match inner {
        DepthTree::Empty => unreachable!(),
        DepthTree::Node(node) => {
            let node: &DepthNode = node;
            let low = fork(alloc, outer.share()?, before, node.left.share()?)?;
            let high = fork(alloc, node.right.share()?, chunk, right)?;
            let whole = fork(alloc, low, node.chunk.clone()?, high)?;
            Ok(whole)
        }
    }
}
