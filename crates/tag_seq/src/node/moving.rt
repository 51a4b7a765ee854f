//! A tag of a tree at another place.

ghost use Rattle.std.specs.Prelude.{◌≡◌, ◌<◌, ◌^◌, length, IfOk};
ghost use Rattle.tag_seq.specs.Tags.{moved};
ghost use Rattle.tag_seq.specs.Trees.{tags};

use crate::node::TagTree;
use crate::node::cutting::{concat, first, rest};
use crate::node::joining::join;
use std::alloc::{AllocError, Global};

/// The tags with the one at a place taken out and put at another place of what is left.
pub(crate) fn move_tag(
    alloc: Global,
    tree: &TagTree,
    from: u64,
    to: u64,
) -> Result<TagTree, AllocError>
    requires from { from < length (tags tree.now) }
    requires to { to < length (tags tree.now) }
    requires small { length (tags tree.now) < 2 ^ 64 }
    ensures { IfOk result (λ t. tags t ≡ moved from to (tags tree.now)) }
{
    let behind = rest(alloc, tree, from)?;
    let Some(tag) = behind.first_tag() else {
        unreachable!();
    };
    let others = concat(alloc, &first(alloc, tree, from)?, &rest(alloc, &behind, 1)?)?;
    let front = first(alloc, &others, to)?;
    let before = front.total(alloc)?;
    let whole = join(alloc, &front, before, tag, &rest(alloc, &others, to)?)?;
    Ok(whole)
}
