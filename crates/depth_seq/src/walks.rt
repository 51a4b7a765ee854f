//! Walks down a tree of depths, which see each node by a look into it and count their looks.

ghost use Rattle.std.specs.Prelude.{◌≡◌, ◌<◌, ◌≤◌, ◌+◌, ◌*◌, ◌^◌, ◌++◌, ℕ, List, length, drop, IfSome, MatchOption};
ghost use Rattle.depth_seq.specs.declared.found.Found.TheVariants.{Behind};
ghost use Rattle.depth_seq.specs.Searches.{search, PassesAtMost, GoesOn};
ghost use Rattle.depth_seq.specs.Sums.{AreSums};
ghost use Rattle.depth_seq.specs.Trees.{depths, height};

use crate::found::Found;
use crate::node::DepthTree;
use crate::steps::Steps;
use crate::sum::Sum;
use std::sync::ledger::Ledger;

/// The depths from a place on that are in the chunk of that place.
#[tactic(auto, using(crate::proofs::Parts::chunk_rules))]
pub(crate) fn chunk_from<'a, L: Ledger>(
    tree: &'a DepthTree,
    at: usize,
    steps: &mut Steps<L>,
) -> &'a [u64]
    requires { at < length (depths tree.now) }
    ensures some { 0 < length result.now }
    ensures within { at + length result.now ≤ length (depths tree.now) }
    ensures items { result.now ++ drop (at + length result.now) (depths tree.now) ≡ drop at (depths tree.now) }
    ensures steps { steps.new ≤ steps.old + height tree.now }
{
    match tree {
        DepthTree::Empty => unreachable!(),
        DepthTree::Node(node) => {
            let seen = node.look(steps);
            if at < seen.left_size {
                return chunk_from(seen.left, at, steps);
            }
            let inner = at - seen.left_size;
            if inner < seen.chunk.len() {
                let (_, rest) = seen.chunk.split_at(inner);
                return rest;
            }
            chunk_from(seen.right, inner - seen.chunk.len(), steps)
        }
    }
}

// How many children a search has passed behind a part of the depths, if it goes on there: what is kept of that part
// says so. The search comes to the part behind some children.
fn passed_behind(kept: &Sum, depth: u64, number: u64, passed: u64) -> Option<u64>
    requires { passed ≤ number }
    ensures answer { (ds : List ℕ) (at : ℕ) → AreSums kept.now ds
        → MatchOption result (GoesOn (search depth number at passed ds) → ⊥) (λ k. search depth number at passed ds
        ≡ Behind k) }
    ensures few { IfSome result (λ k. k ≤ number) }
{
    if kept.size == 0 {
        return Some(passed);
    }
    if kept.least <= depth {
        return None;
    }
    if kept.least - 1 > depth {
        return Some(passed);
    }
    if kept.leasts > number - passed {
        return None;
    }
    Some(passed + kept.leasts)
}

// A search in a chunk from one of its places on. `at` is the place of its first depth in the complete list.
fn find_in(chunk: &[u64], first: usize, at: usize, depth: u64, number: u64, passed: u64) -> Found
    requires within { first ≤ length chunk.now }
    requires fits { at + length chunk.now < 2 ^ 64 }
    requires few { passed ≤ number }
    ensures found { result ≡ search depth number (at + first) passed (drop first chunk.now) }
    ensures few { PassesAtMost number result }
{
    let mut count = passed;
    for i in first..chunk.len() {
        let next = chunk[i];
        if next <= depth {
            return Found::End(at + i, count);
        }
        if next - 1 == depth {
            if count == number {
                return Found::Child(at + i);
            }
            count += 1;
        }
    }
    Found::Behind(count)
}

/// A search in all depths of a tree. `at` is the place of the first one in the complete list.
#[tactic(auto, using(crate::proofs::Searches::walk_rules))]
pub(crate) fn find<L: Ledger>(
    tree: &DepthTree,
    at: usize,
    depth: u64,
    number: u64,
    passed: u64,
    steps: &mut Steps<L>,
) -> Found
    requires fits { at + length (depths tree.now) < 2 ^ 64 }
    requires few { passed ≤ number }
    ensures found { result ≡ search depth number at passed (depths tree.now) }
    ensures few { PassesAtMost number result }
    ensures steps { steps.new ≤ steps.old + 2 * height tree.now }
    ensures behind { GoesOn result → steps.new ≤ steps.old + 1 }
{
    match tree {
        DepthTree::Empty => Found::Behind(passed),
        DepthTree::Node(node) => {
            let seen = node.look(steps);
            if let Some(children) = passed_behind(&seen.kept, depth, number, passed) {
                return Found::Behind(children);
            }
            let ahead = find(seen.left, at, depth, number, passed, steps);
            let Found::Behind(before) = ahead else {
                return ahead;
            };
            let start = at + seen.left_size;
            let here = find_in(seen.chunk, 0, start, depth, number, before);
            let Found::Behind(children) = here else {
                return here;
            };
            let place = start + seen.chunk.len();
            find(seen.right, place, depth, number, children, steps)
        }
    }
}

// A search from a place of a chunk on, and in the part behind the chunk. `at` is the place of the chunk's first depth
// in the complete list.
#[tactic(auto, using(crate::proofs::Searches::walk_rules))]
fn find_behind<L: Ledger>(
    chunk: &[u64],
    right: &DepthTree,
    first: usize,
    at: usize,
    depth: u64,
    number: u64,
    passed: u64,
    steps: &mut Steps<L>,
) -> Found
    requires within { first ≤ length chunk.now }
    requires fits { at + length chunk.now + length (depths right.now) < 2 ^ 64 }
    requires few { passed ≤ number }
    ensures found { result ≡ search depth number (at + first) passed (drop first chunk.now ++ depths right.now) }
    ensures few { PassesAtMost number result }
    ensures steps { steps.new ≤ steps.old + 2 * height right.now }
    ensures behind { GoesOn result → steps.new ≤ steps.old + 1 }
{
    let here = find_in(chunk, first, at, depth, number, passed);
    let Found::Behind(children) = here else {
        return here;
    };
    find(right, at + chunk.len(), depth, number, children, steps)
}

/// A search in the depths of a tree from a place on. `at` is the place of the first one in the complete list.
#[tactic(auto, using(crate::proofs::Searches::walk_rules))]
pub(crate) fn find_from<L: Ledger>(
    tree: &DepthTree,
    from: usize,
    at: usize,
    depth: u64,
    number: u64,
    steps: &mut Steps<L>,
) -> Found
    requires within { from ≤ length (depths tree.now) }
    requires fits { at + length (depths tree.now) < 2 ^ 64 }
    ensures found { result ≡ search depth number (at + from) 0 (drop from (depths tree.now)) }
    ensures few { PassesAtMost number result }
    ensures steps { steps.new ≤ steps.old + 4 * height tree.now }
    ensures behind { GoesOn result → steps.new ≤ steps.old + 2 * height tree.now }
{
    match tree {
        DepthTree::Empty => Found::Behind(0),
        DepthTree::Node(node) => {
            let seen = node.look(steps);
            let start = at + seen.left_size;
            if from < seen.left_size {
                let ahead = find_from(seen.left, from, at, depth, number, steps);
                let Found::Behind(before) = ahead else {
                    return ahead;
                };
                return find_behind(
                    seen.chunk, seen.right, 0, start, depth, number, before, steps,
                );
            }
            let inner = from - seen.left_size;
            if inner <= seen.chunk.len() {
                return find_behind(
                    seen.chunk, seen.right, inner, start, depth, number, 0, steps,
                );
            }
            let behind = inner - seen.chunk.len();
            find_from(
                seen.right,
                behind,
                start + seen.chunk.len(),
                depth,
                number,
                steps,
            )
        }
    }
}
