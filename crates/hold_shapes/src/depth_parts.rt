//! Changes of the depths of a tree: the new list shares what stays with the old one.
ghost use Rattle.std.specs.Prelude.{◌≡◌, ◌≤◌, ◌+◌, ◌-◌, length, IfOk};
ghost use Rattle.std.specs.List.{insert};
ghost use Rattle.hold_shapes.specs.Plans.{remove_part, insert_part, move_part};

use depth_seq::DepthSeq;
use std::alloc::{AllocError, Global};

/// The depths with one more at a place.
pub(crate) fn with_depth(
    alloc: Global,
    depths: &DepthSeq,
    at: usize,
    depth: u64,
) -> Result<DepthSeq, AllocError>
    requires { at ≤ length depths.now }
    ensures { IfOk result (λ list. list ≡ insert depths.now at depth) }
{
    if depths.len() == usize::MAX {
        return Err(AllocError);
    }
    depths.spliced(alloc, at, at, &[depth])
}

/// The depths without the part between two places.
pub(crate) fn remove_part(
    alloc: Global,
    depths: &DepthSeq,
    from: usize,
    to: usize,
) -> Result<DepthSeq, AllocError>
    requires order { from ≤ to }
    requires within { to ≤ length depths.now }
    ensures { IfOk result (λ list. list ≡ remove_part from to depths.now) }
{
    let _len = depths.len();
    depths.spliced(alloc, from, to, &[])
}

/// The depths with a part inserted at a place.
pub(crate) fn insert_part(
    alloc: Global,
    at: usize,
    part: &DepthSeq,
    depths: &DepthSeq,
) -> Result<DepthSeq, AllocError>
    requires { at ≤ length depths.now }
    ensures { IfOk result (λ list. list ≡ insert_part at part.now depths.now) }
{
    if part.len() > usize::MAX - depths.len() {
        return Err(AllocError);
    }
    depths.with_part(alloc, at, part)
}

/// The depths with the part between two places moved to a place of the rest.
#[tactic(auto, using(crate::proofs::SharedItems::part_rules))]
pub(crate) fn move_part(
    alloc: Global,
    depths: &DepthSeq,
    from: usize,
    to: usize,
    at: usize,
) -> Result<DepthSeq, AllocError>
    requires order { from ≤ to }
    requires within { to ≤ length depths.now }
    requires place { at + (to - from) ≤ length depths.now }
    ensures { IfOk result (λ list. list ≡ move_part from to at depths.now) }
{
    let part = depths.part(alloc, from, to - from)?;
    let rest = remove_part(alloc, depths, from, to)?;
    insert_part(alloc, at, &part, &rest)
}
