//! Changes of shared lists: the new list shares what stays with the old one.
ghost use Rattle.std.specs.Prelude.{◌≡◌, ◌≤◌, ◌<◌, ◌+◌, ◌-◌, ◌^◌, ◌++◌, ◌∷◌, [], length, take, drop, IfOk};
ghost use Rattle.std.specs.List.{insert, remove};

use shared_lists::{Hint, SharedList};
use std::alloc::{AllocError, Global};

/// A list with one more item at a place.
pub(crate) fn with_item<T: Drop + Hint>(
    alloc: Global,
    items: &SharedList<T>,
    at: usize,
    item: T,
) -> Result<SharedList<T>, AllocError>
    requires { at ≤ length items.now }
    ensures { IfOk result (λ list. list ≡ insert items.now at item) }
{
    if items.len() == usize::MAX {
        return Err(AllocError);
    }
    with_items(alloc, items, at, one_item(alloc, item)?)
}

// The item alone.
fn one_item<T: Drop>(alloc: Global, item: T) -> Result<Vec<T>, AllocError>
    ensures { IfOk result (λ one. one.items ≡ item ∷ []) }
{
    let mut one = Vec::with_capacity(alloc, 1)?;
    one.push(item)?;
    Ok(one)
}

// A list with more items at a place.
fn with_items<T: Drop + Hint>(
    alloc: Global,
    items: &SharedList<T>,
    at: usize,
    more: Vec<T>,
) -> Result<SharedList<T>, AllocError>
    requires within { at ≤ length items.now }
    requires fits { length items.now + length more.items < 2 ^ 64 }
    ensures { IfOk result (λ list. list ≡ take at items.now ++ more.items ++ drop at items.now) }
{
    let mut grown = items.copy(alloc)?;
    grown.insert_many(alloc, at, more)?;
    Ok(grown)
}

/// A list without the item at a place.
#[tactic(auto, using(crate::proofs::SharedItems::part_rules))]
pub(crate) fn without_item<T: Drop + Hint>(
    alloc: Global,
    items: &SharedList<T>,
    at: usize,
) -> Result<SharedList<T>, AllocError>
    requires { at < length items.now }
    ensures items { IfOk result (λ list. list ≡ remove items.now at) }
    ensures size { IfOk result (λ list. length list + 1 ≡ length items.now) }
{
    let mut left = items.copy(alloc)?;
    left.delete(alloc, at, 1)?;
    Ok(left)
}

/// A list with the items between two places replaced by those of another list, which both lists share then.
#[tactic(auto, using(crate::proofs::SharedItems::part_rules))]
pub(crate) fn replace_part<T: Drop + Hint>(
    alloc: Global,
    items: &SharedList<T>,
    from: usize,
    to: usize,
    more: &SharedList<T>,
) -> Result<SharedList<T>, AllocError>
    requires order { from ≤ to }
    requires within { to ≤ length items.now }
    requires fits { from + (length more.now + (length items.now - to)) < 2 ^ 64 }
    ensures { IfOk result (λ list. list ≡ take from items.now ++ more.now ++ drop to items.now) }
{
    let mut list = items.copy(alloc)?;
    list.replace(alloc, from, to - from, more)?;
    Ok(list)
}
