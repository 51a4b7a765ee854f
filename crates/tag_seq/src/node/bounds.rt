//! Whether all tags of a tree are below a bound.

ghost use Rattle.std.specs.Prelude.{◌≡◌};
ghost use Rattle.tag_seq.specs.Tags.{are_below};
ghost use Rattle.tag_seq.specs.Trees.{tags};

use crate::node::{TagNode, TagTree};

impl TagTree {
    /// Whether every tag is below a bound. Goes down the right edge: the counts of a left part end with its largest
    /// tag.
    pub(crate) fn is_below(&self, bound: u32) -> bool
        ensures { result ≡ are_below bound (tags self.now) }
    {
        match self {
            TagTree::Empty => true,
            TagTree::Node(node) => {
                let node: &TagNode = node;
                if !node.left_counts.is_below(bound) {
                    return false;
                }
                node.tag < bound && node.right.is_below(bound)
            }
        }
    }
}
