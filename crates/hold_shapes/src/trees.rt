//! Nodes of a tree that is given by the depths of its nodes in preorder.
ghost use Rattle.std.specs.Prelude.{◌≡◌, ◌↔◌, ◌<◌, ◌≤◌, length, slice_index, IfSome, IsTrue, true};
ghost use Rattle.hold_shapes.specs.Trees.{is_valid, end_of, children, child, node};

use depth_seq::{DepthSeq, Found};

// The depth at a place.
#[tactic(auto, using(crate::proofs::SharedItems::item_rules))]
pub(crate) fn depth_at(depths: &DepthSeq, at: usize) -> u64
    requires { at < length depths.now }
    ensures { result ≡ slice_index depths.now at }
{
    *depths.get(at)
}

// Whether the depths are those of a tree in preorder.
pub(crate) fn is_valid(depths: &DepthSeq) -> bool
    ensures { result ≡ is_valid depths.now }
{
    let mut before: Option<u64> = None;
    for depth in depths {
        match before {
            None => {
                if *depth != 0 {
                    return false;
                }
            }
            Some(earlier) => {
                if *depth < 1 {
                    return false;
                }
                if *depth - 1 > earlier {
                    return false;
                }
                if *depth > 15 {
                    return false;
                }
            }
        }
        before = Some(*depth);
    }
    before.is_some()
}

/// The place after the subtree of a node, which is one of the places.
#[tactic(auto, using(crate::proofs::DepthSearches::end_rules))]
pub fn end(depths: &DepthSeq, at: usize) -> usize
    requires { at < length depths.now }
    ensures value { result ≡ end_of depths.now at }
    ensures above { at < result }
    ensures within { result ≤ length depths.now }
{
    let size = depths.len();
    match depths.find(at + 1, depth_at(depths, at), u64::MAX) {
        Found::Child(_) => unreachable!(),
        Found::End(place, _) => place,
        Found::Behind(_) => size,
    }
}

/// How many children a node has, which is one of the places.
#[tactic(auto, using(crate::proofs::DepthSearches::children_rules))]
pub fn children(depths: &DepthSeq, at: usize) -> usize
    requires { at < length depths.now }
    ensures { result ≡ children depths.now at }
{
    let _size = depths.len();
    match depths.find(at + 1, depth_at(depths, at), u64::MAX) {
        Found::Child(_) => unreachable!(),
        Found::End(_, count) => count as usize,
        Found::Behind(count) => count as usize,
    }
}

/// The place of a child of a node, which is one of the places. Children are numbered from 0. Returns None if and only
/// if the node has no child of this number.
#[tactic(auto, using(crate::proofs::DepthSearches::child_rules))]
pub fn child(depths: &DepthSeq, at: usize, number: u64) -> Option<usize>
    requires { at < length depths.now }
    ensures value { result ≡ child depths.now at number }
    ensures above { IfSome result (λ p. at < p) }
    ensures within { IfSome result (λ p. p < length depths.now) }
{
    let _size = depths.len();
    match depths.find(at + 1, depth_at(depths, at), number) {
        Found::Child(place) => Some(place),
        Found::End(_, _) => None,
        Found::Behind(_) => None,
    }
}

/// The place of the node that a path names. The tree has a root. Returns None if and only if there is no such node.
#[tactic(auto, using(crate::proofs::Nodes::node_rules))]
pub fn node(depths: &DepthSeq, path: &[u64]) -> Option<usize>
    requires { 0 < length depths.now }
    ensures value { result ≡ node depths.now path.now }
    ensures within { IfSome result (λ p. p < length depths.now) }
{
    let mut at = 0;
    for number in path {
        match child(depths, at, *number) {
            Some(next) => at = next,
            None => return None,
        }
    }
    Some(at)
}

// The place of the node that a path names.
pub(crate) fn place(depths: &DepthSeq, path: &[u64]) -> Option<u64>
    requires { is_valid depths.now ≡ true }
    ensures { result ≡ node depths.now path.now }
{
    if depths.is_empty() {
        return None;
    }
    match node(depths, path) {
        Some(at) => Some(at as u64),
        None => None,
    }
}

// Whether both lists have the same depths in the same order.
pub(crate) fn are_same(depths: &DepthSeq, others: &DepthSeq) -> bool
    ensures { IsTrue result ↔ (depths.now ≡ others.now) }
{
    if depths.len() != others.len() {
        return false;
    }
    for i in 0..depths.len() {
        if depth_at(depths, i) != depth_at(others, i) {
            return false;
        }
    }
    true
}
