//! Walks down a tree of tags, which see each node by a look into it and count their looks.

ghost use Rattle.std.specs.Prelude.{◌≡◌, ◌<◌, ◌≤◌, ◌+◌, ◌^◌, length, slice_index, IfSome};
ghost use Rattle.tag_seq.specs.Tags.{one_if_same, rank, place, further};
ghost use Rattle.tag_seq.specs.Trees.{tags, height};

use crate::node::TagTree;
use crate::steps::Steps;
use std::sync::ledger::Ledger;

/// The tag at a place.
#[tactic(auto, using(crate::proofs::Sides::side_rules))]
pub(crate) fn tag_at<L: Ledger>(tree: &TagTree, at: u64, steps: &mut Steps<L>) -> u32
    requires { at < length (tags tree.now) }
    ensures tag { result ≡ slice_index (tags tree.now) at }
    ensures steps { steps.new ≤ steps.old + height tree.now }
{
    match tree {
        TagTree::Empty => unreachable!(),
        TagTree::Node(node) => {
            let seen = node.look(steps);
            if at < seen.left_size {
                tag_at(seen.left, at, steps)
            } else if at == seen.left_size {
                seen.tag
            } else {
                tag_at(seen.right, at - seen.left_size - 1, steps)
            }
        }
    }
}

/// How often a tag occurs before a place.
#[tactic(auto, using(crate::proofs::Ranks::rank_rules))]
pub(crate) fn rank<L: Ledger>(tree: &TagTree, tag: u32, upto: u64, steps: &mut Steps<L>) -> u64
    requires { upto ≤ length (tags tree.now) }
    ensures rank { result ≡ rank tag upto (tags tree.now) }
    ensures within { result ≤ upto }
    ensures steps { steps.new ≤ steps.old + height tree.now }
{
    match tree {
        TagTree::Empty => 0,
        TagTree::Node(node) => {
            let seen = node.look(steps);
            if upto <= seen.left_size {
                return rank(seen.left, tag, upto, steps);
            }
            let ahead = seen.left_counts.number(tag);
            let here = count_here(seen.tag, tag);
            let behind = rank(seen.right, tag, upto - seen.left_size - 1, steps);
            ahead + here + behind
        }
    }
}

/// The place of the occurrence of a tag that has `k` others before it, if there is one.
#[tactic(auto, using(crate::proofs::Ranks::place_rules))]
pub(crate) fn select<L: Ledger>(
    tree: &TagTree,
    tag: u32,
    k: u64,
    steps: &mut Steps<L>,
) -> Option<u64>
    ensures place { result ≡ place tag k (tags tree.now) }
    ensures within { IfSome result (λ p. p < length (tags tree.now)) }
    ensures steps { steps.new ≤ steps.old + height tree.now }
{
    match tree {
        TagTree::Empty => None,
        TagTree::Node(node) => {
            let seen = node.look(steps);
            let before = seen.left_counts.number(tag);
            if k < before {
                return select(seen.left, tag, k, steps);
            }
            let here = count_here(seen.tag, tag);
            if k - before < here {
                return Some(seen.left_size);
            }
            let behind = select(seen.right, tag, k - before - here, steps);
            further(seen.left_size + 1, behind)
        }
    }
}

// How often a tag occurs where one tag is seen.
fn count_here(seen: u32, tag: u32) -> u64
    ensures value { result ≡ one_if_same seen tag }
    ensures within { result ≤ 1 }
{
    if seen == tag { 1 } else { 0 }
}

// A place of a list, seen from a list that has `more` tags more at its front.
fn further(more: u64, place: Option<u64>) -> Option<u64>
    requires { IfSome place (λ p. more + p < 2 ^ 64) }
    ensures { result ≡ further more place }
{
    match place {
        Some(at) => Some(more + at),
        None => None,
    }
}
