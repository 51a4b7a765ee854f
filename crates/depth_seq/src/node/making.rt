//! Trees of given depths.

ghost use Rattle.std.specs.Prelude.{◌≡◌, ◌<◌, ◌≤◌, length, take, IfOk};
ghost use Rattle.depth_seq.specs.Trees.{depths};

use crate::node::joining::join;
use crate::node::{CHUNK, DepthTree};
use std::alloc::{AllocError, Global};
use std::rc::Rc;

/// A tree of these depths, in time linear in their number.
#[tactic(auto, using(crate::proofs::Parts::making_rules))]
pub(crate) fn build(alloc: Global, list: &[u64]) -> Result<DepthTree, AllocError>
    ensures { IfOk result (λ t. depths t ≡ list.now) }
{
    let len = list.len();
    if len == 0 {
        return Ok(DepthTree::Empty);
    }
    if len <= CHUNK {
        return join(
            alloc,
            &DepthTree::Empty,
            chunk_of(alloc, list)?,
            &DepthTree::Empty,
        );
    }
    let (front, rest) = list.split_at(len.saturating_sub(16) / 2);
    let (middle, back) = rest.split_at(rest.len().min(16));
    let left = build(alloc, front)?;
    let right = build(alloc, back)?;
    let whole = join(alloc, &left, chunk_of(alloc, middle)?, &right)?;
    Ok(whole)
}

/// A chunk of these depths.
pub(crate) fn chunk_of(alloc: Global, list: &[u64]) -> Result<Rc<Vec<u64>>, AllocError>
    ensures { IfOk result (λ c. c.value.items ≡ list.now) }
{
    let items = Vec::from_slice(alloc, list)?;
    Ok(Rc::new(alloc, items)?)
}
