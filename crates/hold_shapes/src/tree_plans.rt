//! Plans of trees. A subtree is a block of the depths and of the origins, and moves as one.
ghost use Rattle.std.specs.Prelude.{◌≡◌, ℕ, List, Ok, IfOk, MatchResult, MatchOption, ◌≤◌, ◌<◌, length, slice_index};
ghost use Rattle.std.specs.Prelude.{slice_range, ◌+◌, ◌-◌, nat_le, true, false};
ghost use Rattle.hold_shapes.specs.declared.shape.Shape.TheVariants.{Tree as TreeOf};
ghost use Rattle.hold_shapes.specs.declared.edit.ShapeEdit.TheVariants.{Graft, Prune, Shift, Hang};
ghost use Rattle.hold_shapes.specs.Trees.{child, end_of, is_valid};
ghost use Rattle.hold_shapes.specs.Causes.{IsRefusal};
ghost use Rattle.hold_shapes.specs.Plans.{plan_tree, old_places, remove_part, move_part, move_subtree, place_for_child};
ghost use Rattle.hold_shapes.specs.Plans.{allowed_depths, hang_below};

use crate::depth_parts::{insert_part, move_part, remove_part, with_depth};
use crate::origins::Origins;
use crate::path::Path;
use crate::plan::{Plan, PlanFault};
use crate::plan_origins::{self, with_fresh, without_part};
use crate::shape::TreeShape;
use crate::trees::{child, children, depth_at, end, node};
use depth_seq::DepthSeq;
use std::alloc::{AllocError, Global};

// A fresh node as the last child of a node.
#[tactic(auto, using(crate::proofs::ValidDepths::valid_rules))]
pub(crate) fn graft(
    alloc: Global,
    tree: &TreeShape,
    path: &Path,
) -> Result<Plan<TreeShape>, PlanFault>
    ensures { MatchResult result
        (λ p. plan_tree tree.now (Graft path.now) ≡ Ok (TreeOf p.shape, p.from))
        (λ fault. IsRefusal (plan_tree tree.now (Graft path.now)) fault) }
{
    let depths = tree.depths();
    let Some(at) = node(depths, path.as_slice()) else {
        return Err(PlanFault::Place);
    };
    let depth = depth_at(depths, at);
    if depth >= 15 {
        return Err(PlanFault::Deep);
    }
    let to = end(depths, at);
    let from = with_fresh(alloc, depths.len() as u64, to as u64)?;
    let grown = with_depth(alloc, depths, to, depth + 1)?;
    Ok(Plan {
        shape: TreeShape::of_valid(grown),
        from,
    })
}

// The last child of a node is removed with its subtree.
#[tactic(auto, using(crate::proofs::ValidDepths::valid_rules))]
pub(crate) fn prune(
    alloc: Global,
    tree: &TreeShape,
    path: &Path,
) -> Result<Plan<TreeShape>, PlanFault>
    ensures { MatchResult result
        (λ p. plan_tree tree.now (Prune path.now) ≡ Ok (TreeOf p.shape, p.from))
        (λ fault. IsRefusal (plan_tree tree.now (Prune path.now)) fault) }
{
    let depths = tree.depths();
    let Some(at) = node(depths, path.as_slice()) else {
        return Err(PlanFault::Place);
    };
    let count = children(depths, at) as u64;
    if count == 0 {
        return Err(PlanFault::Range);
    }
    let Some(last) = child(depths, at, count - 1) else {
        return Err(PlanFault::Range);
    };
    let to = end(depths, last);
    let from = without_part(alloc, depths.len() as u64, last as u64, to as u64)?;
    let left = remove_part(alloc, depths, last, to)?;
    Ok(Plan {
        shape: TreeShape::of_valid(left),
        from,
    })
}

// The origins after the subtree between two places is moved to a place of the rest.
fn moved_nodes(
    alloc: Global,
    depths: &DepthSeq,
    from: usize,
    to: usize,
    at: usize,
) -> Result<Origins, AllocError>
    requires order { from ≤ to }
    requires within { to ≤ length depths.now }
    requires place { at + (to - from) ≤ length depths.now }
    ensures { IfOk result (λ origins. origins ≡ move_part from to at (old_places (length depths.now))) }
{
    plan_origins::move_part(
        alloc,
        depths.len() as u64,
        from as u64,
        to as u64,
        at as u64,
    )
}

// The place of a child of a node; without such a child, the place that a new last one has.
#[tactic(auto, using(crate::proofs::ChildPlaces::slot_rules))]
fn place_for_child(depths: &DepthSeq, at: usize, number: u64) -> usize
    requires { at < length depths.now }
    ensures value { result ≡ place_for_child depths.now at (child depths.now at number) }
    ensures above { at < result }
    ensures within { result ≤ length depths.now }
{
    match child(depths, at, number) {
        Some(place) => place,
        None => end(depths, at),
    }
}

// The place that a child of a node takes among the others, in the rest without its subtree.
#[tactic(auto, using(crate::proofs::ChildPlaces::slot_rules))]
fn place_in_rest(
    alloc: Global,
    depths: &DepthSeq,
    at: usize,
    from: usize,
    number: u64,
) -> Result<usize, AllocError>
    requires order { at < from }
    requires within { from < length depths.now }
    ensures value { IfOk result
        (λ place. place ≡ place_for_child (remove_part from (end_of depths.now from) depths.now) at
        (child (remove_part from (end_of depths.now from) depths.now) at number)) }
    ensures bound { IfOk result (λ place. place + (end_of depths.now from - from) ≤ length depths.now) }
{
    let rest = remove_part(alloc, depths, from, end(depths, from))?;
    Ok(place_for_child(&rest, at, number))
}

// The tree after the subtree between two places is moved to a place of the rest.
fn moved_subtree(
    alloc: Global,
    depths: &DepthSeq,
    from: usize,
    to: usize,
    at: usize,
) -> Result<Plan<TreeShape>, AllocError>
    requires order { from ≤ to }
    requires within { to ≤ length depths.now }
    requires place { at + (to - from) ≤ length depths.now }
    requires valid { is_valid (move_part from to at depths.now) ≡ true }
    ensures { IfOk result (λ p. move_subtree depths.now from to at ≡ Ok (TreeOf p.shape, p.from)) }
{
    let origins = moved_nodes(alloc, depths, from, to, at)?;
    let moved = move_part(alloc, depths, from, to, at)?;
    Ok(Plan {
        shape: TreeShape::of_valid(moved),
        from: origins,
    })
}

// A child of a node becomes its child of another number.
#[tactic(auto, using(crate::proofs::ChildPlaces::slot_rules))]
pub(crate) fn shift(
    alloc: Global,
    tree: &TreeShape,
    path: &Path,
    number: u64,
    to: u64,
) -> Result<Plan<TreeShape>, PlanFault>
    ensures { MatchResult result
        (λ p. plan_tree tree.now (Shift path.now number to) ≡ Ok (TreeOf p.shape, p.from))
        (λ fault. IsRefusal (plan_tree tree.now (Shift path.now number to)) fault) }
{
    let depths = tree.depths();
    let Some(at) = node(depths, path.as_slice()) else {
        return Err(PlanFault::Place);
    };
    let count = children(depths, at) as u64;
    if number >= count || to >= count {
        return Err(PlanFault::Range);
    }
    let Some(place) = child(depths, at, number) else {
        return Err(PlanFault::Range);
    };
    let target = place_in_rest(alloc, depths, at, place, to)?;
    let after = end(depths, place);
    Ok(moved_subtree(alloc, depths, place, after, target)?)
}

// A depth in a subtree whose root has depth `top`, after it is moved below a node of this depth.
fn moved_depth(old: u64, top: u64, depth: u64) -> Option<u64>
    ensures { MatchOption result
        (nat_le (old - top + (depth + 1)) 15 ≡ false)
        (λ moved. (moved ≡ old - top + (depth + 1)) × (nat_le moved 15 ≡ true)) }
{
    let below = old.saturating_sub(top);
    if below >= 15 || depth >= 15 - below {
        return None;
    }
    Some(below + (depth + 1))
}

// The depths of a subtree whose root has depth `top`, after it is moved below a node of this depth.
#[tactic(auto, using(crate::proofs::MovedDepths::depth_rules))]
fn moved_depths(alloc: Global, part: &DepthSeq, top: u64, depth: u64) -> Result<Vec<u64>, PlanFault>
    ensures { MatchResult result
        (λ all. allowed_depths top depth part.now ≡ Ok all.items)
        (λ fault. IsRefusal (allowed_depths top depth part.now) fault) }
{
    let mut all = Vec::new(alloc);
    for i in 0..part.len() {
        let Some(moved) = moved_depth(depth_at(part, i), top, depth) else {
            return Err(PlanFault::Deep);
        };
        all.push(moved)?;
    }
    Ok(all)
}

// The depths of the subtree between two places, after it is moved below a node of this depth.
fn moved_block(
    alloc: Global,
    depths: &DepthSeq,
    from: usize,
    to: usize,
    depth: u64,
) -> Result<DepthSeq, PlanFault>
    requires order { from < to }
    requires within { to ≤ length depths.now }
    ensures { MatchResult result
        (λ block. allowed_depths (slice_index depths.now from) depth (slice_range depths.now from to) ≡ Ok block)
        (λ fault.
        IsRefusal (allowed_depths (slice_index depths.now from) depth (slice_range depths.now from to)) fault) }
{
    let part = depths.part(alloc, from, to - from)?;
    let moved = moved_depths(alloc, &part, depth_at(depths, from), depth)?;
    Ok(DepthSeq::from_vec(alloc, moved)?)
}

// The subtree between two places becomes the last child of a node of the rest.
#[tactic(auto, using(crate::proofs::MovedDepths::hung_rules))]
fn hang_below(
    alloc: Global,
    depths: &DepthSeq,
    from: usize,
    rest: &DepthSeq,
    at: usize,
) -> Result<Plan<TreeShape>, PlanFault>
    requires valid { is_valid depths.now ≡ true }
    requires order { 0 < from }
    requires within { from < length depths.now }
    requires rest { rest.now ≡ remove_part from (end_of depths.now from) depths.now }
    requires node { at < length rest.now }
    ensures { MatchResult result
        (λ p. hang_below depths.now from (end_of depths.now from) rest.now at ≡ Ok (TreeOf p.shape, p.from))
        (λ fault. IsRefusal (hang_below depths.now from (end_of depths.now from) rest.now at) fault) }
{
    let after = end(depths, from);
    let block = moved_block(alloc, depths, from, after, depth_at(rest, at))?;
    let target = end(rest, at);
    let grown = insert_part(alloc, target, &block, rest)?;
    let origins = moved_nodes(alloc, depths, from, after, target)?;
    Ok(Plan {
        shape: TreeShape::of_valid(grown),
        from: origins,
    })
}

// A subtree becomes the last child of a node of the tree that remains without it.
#[tactic(auto, using(crate::proofs::MovedDepths::hung_rules))]
pub(crate) fn hang(
    alloc: Global,
    tree: &TreeShape,
    part: &Path,
    below: &Path,
) -> Result<Plan<TreeShape>, PlanFault>
    ensures { MatchResult result
        (λ p. plan_tree tree.now (Hang part.now below.now) ≡ Ok (TreeOf p.shape, p.from))
        (λ fault. IsRefusal (plan_tree tree.now (Hang part.now below.now)) fault) }
{
    let depths = tree.depths();
    let Some(top) = node(depths, part.as_slice()) else {
        return Err(PlanFault::Place);
    };
    if top == 0 {
        return Err(PlanFault::Place);
    }
    let rest = remove_part(alloc, depths, top, end(depths, top))?;
    let Some(at) = node(&rest, below.as_slice()) else {
        return Err(PlanFault::Place);
    };
    hang_below(alloc, depths, top, &rest, at)
}
