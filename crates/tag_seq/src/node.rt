//! The nodes of a tree of tags. Only this module and those below it see their fields.

ghost use Rattle.std.specs.Prelude.{◌≡◌, ◌<◌, ◌≤◌, ◌+◌, ◌*◌, ◌^◌, ◌++◌, ◌∷◌, ℕ, length, max, IfOk};
ghost use Rattle.tag_seq.specs.Trees.{tags, height, DifferByAtMost, IsShort};
ghost use Rattle.tag_seq.specs.Totals.{AreTotals};

mod balance;
pub(crate) mod bounds;
pub(crate) mod cutting;
pub(crate) mod joining;
pub(crate) mod making;
pub(crate) mod moving;
pub(crate) mod setting;

use crate::counts::Counts;
use crate::steps::Steps;
use crate::total::Total;
use std::alloc::{AllocError, Global};
use std::marker::Model;
use std::rc::Rc;
use std::sync::ledger::Ledger;

/// A list of tags as a tree. A copy shares the node.
#[cycle(tree)]
#[derive(Drop)]
pub(crate) enum TagTree {
    Empty,
    Node(Rc<TagNode>),
}

/// A tag between two parts, with the height, and how many tags the left part has, in all and of each tag.
///
/// Contracts see it as its tags in order and its height.
#[cycle(tree)]
#[derive(Drop)]
pub(crate) struct TagNode {
    tag: u32,
    left: TagTree,
    right: TagTree,
    height: u32,
    left_size: u64,
    left_counts: Counts,
}

impl Model for TagNode {
    ghost use Rattle.std.specs.Prelude.{List, ℕ, ◌++◌, ◌∷◌, length};

    ghost Value = { List ℕ × ℕ };

    ghost use Rattle.tag_seq.specs.Trees.{tags, IsNode};

    ghost view = { λ a. (tags a.left ++ a.tag ∷ tags a.right, a.height) };

    ghost invariant = { λ a. IsNode a.tag a.left a.right a.height a.left_size a.left_counts };

    ghost size = { λ d. length d.0 };

    ghost use Rattle.std.proofs.Common.{arith, length-append};

    ghost size_decreases = { λ a h. Prim.grind (arith, length-append) };
}

/// What a look into a node shows.
#[derive(Drop)]
pub(crate) struct Seen<'a> {
    pub(crate) tag: u32,
    pub(crate) left: &'a TagTree,
    pub(crate) right: &'a TagTree,
    pub(crate) left_size: u64,
    pub(crate) left_counts: &'a Counts,
}

impl TagNode {
    /// Looks into the node, which is one step. There is no other way to its fields from outside this module.
    pub(crate) fn look<L: Ledger>(&self, steps: &mut Steps<L>) -> Seen<'_>
        ensures tags { self.now.0 ≡ tags result.left.now ++ result.tag ∷ tags result.right.now }
        ensures totals { AreTotals result.left_size result.left_counts.now (tags result.left.now) }
        ensures higher { self.now.1 ≡ max (height result.left.now) (height result.right.now) + 1 }
        ensures small { length self.now.0 < 2 ^ 64 }
        ensures steps { steps.new ≡ steps.old + 1 }
    {
        steps.tick();
        Seen {
            tag: self.tag,
            left: &self.left,
            right: &self.right,
            left_size: self.left_size,
            left_counts: &self.left_counts,
        }
    }
}

impl TagTree {
    /// The height: that of the higher part and one, and 0 of no tags.
    pub(crate) fn height(&self) -> u32
        ensures value { result ≡ height self.now }
        ensures short { IsShort (length (tags self.now)) result }
        ensures bound { result ≤ 128 }
    {
        match self {
            TagTree::Empty => 0,
            TagTree::Node(node) => node.height,
        }
    }

    /// The same tags, shared.
    pub(crate) fn share(&self) -> Result<TagTree, AllocError>
        ensures tags { IfOk result (λ t. tags t ≡ tags self.now) }
        ensures height { IfOk result (λ t. height t ≡ height self.now) }
    {
        match self {
            TagTree::Empty => Ok(TagTree::Empty),
            TagTree::Node(node) => Ok(TagTree::Node(node.clone()?)),
        }
    }

    /// How many tags there are, in all and of each tag.
    pub(crate) fn total(&self, alloc: Global) -> Result<Total, AllocError>
        ensures { IfOk result (λ t. AreTotals t.size t.counts (tags self.now)) }
    {
        match self {
            TagTree::Empty => Ok(Total::zero(alloc)),
            TagTree::Node(node) => {
                let node: &TagNode = node;
                let behind = node.right.total(alloc)?;
                let front = Total::of_part(alloc, node.left_size, &node.left_counts)?;
                let whole = front.and(alloc, node.tag, behind.size, &behind.counts)?;
                Ok(whole)
            }
        }
    }
}

// A tag between two parts whose heights differ by at most one. `before` is the total of the left part.
fn fork(
    alloc: Global,
    left: TagTree,
    before: Total,
    tag: u32,
    right: TagTree,
) -> Result<TagTree, AllocError>
    requires totals { AreTotals before.size before.counts (tags left) }
    requires balanced { DifferByAtMost 1 (height left) (height right) }
    requires small { length (tags left ++ tag ∷ tags right) < 2 ^ 64 }
    ensures tags { IfOk result (λ t. tags t ≡ tags left ++ tag ∷ tags right) }
    ensures height { IfOk result (λ t. height t ≡ max (height left) (height right) + 1) }
{
    let height = left.height().max(right.height()) + 1;
    let Total { size, counts } = before;
    let node = TagNode {
        tag,
        left,
        right,
        height,
        left_size: size,
        left_counts: counts,
    };
    Ok(TagTree::Node(Rc::new(alloc, node)?))
}

#[cfg(test)]
mod tests;
