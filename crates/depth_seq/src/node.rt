//! The nodes of a balanced tree of depths. Only this module and those below it see their fields.

ghost use Rattle.std.specs.Prelude.{◌≡◌, ◌<◌, ◌≤◌, ◌+◌, ◌^◌, ◌++◌, [], length, max, IfOk};
ghost use Rattle.depth_seq.specs.Trees.{depths, height, DifferByAtMost, IsShort};
ghost use Rattle.depth_seq.specs.Sums.{AreSums};

mod balance;
pub(crate) mod cutting;
pub(crate) mod joining;
pub(crate) mod making;
pub(crate) mod splicing;

use crate::steps::Steps;
use crate::sum::Sum;
use std::alloc::{AllocError, Global};
use std::marker::Model;
use std::rc::Rc;
use std::sync::ledger::Ledger;

/// How many depths a chunk has at most.
pub(crate) const CHUNK: usize = 32;

/// A list of depths as a tree. A copy shares the node.
#[cycle(tree)]
#[derive(Drop)]
pub(crate) enum DepthTree {
    Empty,
    Node(Rc<DepthNode>),
}

/// Some depths between two parts, with the height, the size of the left part, and what is kept of all depths.
///
/// Contracts see it as its depths in order and its height.
#[cycle(tree)]
#[derive(Drop)]
pub(crate) struct DepthNode {
    left: DepthTree,
    chunk: Rc<Vec<u64>>,
    right: DepthTree,
    height: u32,
    left_size: usize,
    kept: Sum,
}

impl Model for DepthNode {
    ghost use Rattle.std.specs.Prelude.{List, ℕ, ◌++◌, length};

    ghost Value = { List ℕ × ℕ };

    ghost use Rattle.depth_seq.specs.Trees.{depths, IsNode};

    ghost view = { λ a. (depths a.left ++ (a.chunk.value.items ++ depths a.right), a.height) };

    ghost invariant = { λ a. IsNode a.left a.chunk.value.items a.right a.height a.left_size a.kept };

    ghost size = { λ d. length d.0 };

    ghost use Rattle.std.proofs.Common.{arith, length-append};

    ghost size_decreases = { λ a h. Prim.grind (arith, length-append) };
}

/// What a look into a node shows.
#[derive(Drop)]
pub(crate) struct Seen<'a> {
    pub(crate) left: &'a DepthTree,
    pub(crate) chunk: &'a [u64],
    pub(crate) right: &'a DepthTree,
    pub(crate) left_size: usize,
    pub(crate) kept: Sum,
}

impl DepthNode {
    /// Looks into the node, which is one step. There is no other way to its fields from outside this module.
    pub(crate) fn look<L: Ledger>(&self, steps: &mut Steps<L>) -> Seen<'_>
        ensures depths { self.now.0 ≡ depths result.left.now ++ (result.chunk.now ++ depths result.right.now) }
        ensures some { 0 < length result.chunk.now }
        ensures front { result.left_size ≡ length (depths result.left.now) }
        ensures sums { AreSums result.kept self.now.0 }
        ensures higher { self.now.1 ≡ max (height result.left.now) (height result.right.now) + 1 }
        ensures small { length self.now.0 < 2 ^ 64 }
        ensures steps { steps.new ≡ steps.old + 1 }
    {
        steps.tick();
        Seen {
            left: &self.left,
            chunk: self.chunk.as_slice(),
            right: &self.right,
            left_size: self.left_size,
            kept: self.kept,
        }
    }
}

impl DepthTree {
    /// The height: that of the higher part and one, and 0 of no depths.
    pub(crate) fn height(&self) -> u32
        ensures value { result ≡ height self.now }
        ensures short { IsShort (length (depths self.now)) result }
        ensures bound { result ≤ 128 }
    {
        match self {
            DepthTree::Empty => 0,
            DepthTree::Node(node) => node.height,
        }
    }

    /// What is kept of the depths.
    pub(crate) fn sum(&self) -> Sum
        ensures { AreSums result (depths self.now) }
    {
        match self {
            DepthTree::Empty => Sum::none(),
            DepthTree::Node(node) => node.kept,
        }
    }

    /// How many depths there are.
    pub(crate) fn len(&self) -> usize
        ensures { result ≡ length (depths self.now) }
    {
        self.sum().size
    }

    /// The same depths, shared.
    pub(crate) fn share(&self) -> Result<DepthTree, AllocError>
        ensures depths { IfOk result (λ t. depths t ≡ depths self.now) }
        ensures height { IfOk result (λ t. height t ≡ height self.now) }
    {
        match self {
            DepthTree::Empty => Ok(DepthTree::Empty),
            DepthTree::Node(node) => Ok(DepthTree::Node(node.clone()?)),
        }
    }
}

// Some depths between two parts whose heights differ by at most one.
fn fork(
    alloc: Global,
    left: DepthTree,
    chunk: Rc<Vec<u64>>,
    right: DepthTree,
) -> Result<DepthTree, AllocError>
    requires some { 0 < length chunk.value.items }
    requires balanced { DifferByAtMost 1 (height left) (height right) }
    requires small { length (depths left ++ (chunk.value.items ++ depths right)) < 2 ^ 64 }
    ensures depths { IfOk result (λ t. depths t ≡ depths left ++ (chunk.value.items ++ depths right)) }
    ensures height { IfOk result (λ t. height t ≡ max (height left) (height right) + 1) }
{
    let height = left.height().max(right.height()) + 1;
    let left_size = left.len();
    let kept = sum_of(&left, chunk.as_slice(), &right);
    let node = DepthNode {
        left,
        chunk,
        right,
        height,
        left_size,
        kept,
    };
    Ok(DepthTree::Node(Rc::new(alloc, node)?))
}

// What is kept of some depths between two parts.
#[tactic(auto, using(crate::proofs::Sums::bound_rules))]
fn sum_of(left: &DepthTree, chunk: &[u64], right: &DepthTree) -> Sum
    requires { length (depths left.now ++ (chunk.now ++ depths right.now)) < 2 ^ 64 }
    ensures { AreSums result (depths left.now ++ (chunk.now ++ depths right.now)) }
{
    let behind = Sum::of(chunk).and(&right.sum());
    left.sum().and(&behind)
}
