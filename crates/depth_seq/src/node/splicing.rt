//! Depths in place of some others.

ghost use Rattle.std.specs.Prelude.{◌≡◌, ◌<◌, ◌≤◌, ◌+◌, ◌-◌, ◌^◌, ◌++◌, length, take, drop, IfOk, IfSome};
ghost use Rattle.depth_seq.specs.Trees.{depths, height};

use crate::node::cutting::{concat, first, rest};
use crate::node::{CHUNK, DepthNode, DepthTree, fork};
use std::alloc::{AllocError, Global};
use std::rc::Rc;

/// The depths with those from `from` to before `to` replaced by others.
///
/// If all of them are in one chunk, and it stays small and not empty, the tree keeps its form.
#[tactic(auto, using(crate::proofs::Parts::splice_rules))]
pub(crate) fn splice(
    alloc: Global,
    tree: &DepthTree,
    from: usize,
    to: usize,
    more: &DepthTree,
) -> Result<DepthTree, AllocError>
    requires order { from ≤ to }
    requires within { to ≤ length (depths tree.now) }
    requires fits { length (depths tree.now) + length (depths more.now) < 2 ^ 64 }
    ensures { IfOk result
        (λ t. depths t ≡ take from (depths tree.now) ++ (depths more.now ++ drop to (depths tree.now))) }
{
    let front = first(alloc, tree, from)?;
    let back = rest(alloc, tree, to)?;
    let behind = concat(alloc, more, &back)?;
    concat(alloc, &front, &behind)
}

/// The same for a few depths, if they and those that they replace are in one chunk, which stays small and not empty.
/// The tree keeps its form. Returns None if not.
#[tactic(auto, using(crate::proofs::Parts::splice_chunk_rules))]
pub(crate) fn splice_chunk(
    alloc: Global,
    tree: &DepthTree,
    from: usize,
    to: usize,
    more: &[u64],
) -> Result<Option<DepthTree>, AllocError>
    requires order { from ≤ to }
    requires within { to ≤ length (depths tree.now) }
    requires fits { length (depths tree.now) + length more.now < 2 ^ 64 }
    ensures depths { IfOk result
        (λ r. IfSome r (λ t. depths t ≡ take from (depths tree.now) ++ (more.now ++ drop to (depths tree.now)))) }
    ensures height { IfOk result (λ r. IfSome r (λ t. height t ≡ height tree.now)) }
{
    match tree {
        DepthTree::Empty => Ok(None),
        DepthTree::Node(node) => {
            let node: &DepthNode = node;
            let middle = node.left_size;
            let after = middle + node.chunk.len();
            if middle <= from && to <= after {
                let chunk = node.chunk.as_slice();
                let Some(spliced) = new_chunk(alloc, chunk, from - middle, to - middle, more)?
                else {
                    return Ok(None);
                };
                let whole = fork(alloc, node.left.share()?, spliced, node.right.share()?)?;
                return Ok(Some(whole));
            }
            if to <= middle {
                let Some(left) = splice_chunk(alloc, &node.left, from, to, more)? else {
                    return Ok(None);
                };
                let whole = fork(alloc, left, node.chunk.clone()?, node.right.share()?)?;
                return Ok(Some(whole));
            }
            if from < after {
                return Ok(None);
            }
            let Some(right) = splice_chunk(alloc, &node.right, from - after, to - after, more)?
            else {
                return Ok(None);
            };
            let whole = fork(alloc, node.left.share()?, node.chunk.clone()?, right)?;
            Ok(Some(whole))
        }
    }
}

// A chunk with some of its depths replaced by others, if it stays small and not empty.
#[tactic(auto, using(crate::proofs::Parts::new_chunk_rules))]
fn new_chunk(
    alloc: Global,
    chunk: &[u64],
    from: usize,
    to: usize,
    more: &[u64],
) -> Result<Option<Rc<Vec<u64>>>, AllocError>
    requires order { from ≤ to }
    requires within { to ≤ length chunk.now }
    ensures items { IfOk result
        (λ r. IfSome r (λ c. c.value.items ≡ take from chunk.now ++ (more.now ++ drop to chunk.now))) }
    ensures some { IfOk result (λ r. IfSome r (λ c. 0 < length c.value.items)) }
{
    if more.len() > CHUNK {
        return Ok(None);
    }
    let (front, _) = chunk.split_at(from);
    let (_, back) = chunk.split_at(to);
    let kept = front.len() + back.len();
    if kept > CHUNK - more.len() || kept + more.len() == 0 {
        return Ok(None);
    }
    let mut items = Vec::with_capacity(alloc, kept + more.len())?;
    items.extend_from_slice(front)?;
    items.extend_from_slice(more)?;
    items.extend_from_slice(back)?;
    Ok(Some(Rc::new(alloc, items)?))
}
