//! Edits of trees: each makes new nodes on its path and shares all others.

ghost use Rattle.std.specs.Prelude.{◌≡◌, ◌<◌, ◌≤◌, ◌+◌, ◌-◌, ◌^◌, ◌++◌, length, take, drop, slice_set, IfOk};
ghost use Rattle.std.specs.declared.option.Option.TheVariants.{Some, None};
ghost use Rattle.shared_lists.specs.Items.{items_of, optional_items, all_items};

use crate::balance::join;
use crate::hint::Hint;
use crate::tree::{CHUNK, Node, Tree, chunk, pair, share, share_all};
use std::alloc::{AllocError, Global};
use std::rc::Rc;

/// How many items a chunk of a longer `Vec` gets: fewer than a chunk may have, so that some can be put in.
const FILL: usize = 12;

/// A tree of the items of a `Vec`, which are moved into its chunks.
pub(crate) fn from_vec<T: Drop + Hint>(
    alloc: Global,
    items: Vec<T>,
) -> Result<Option<Rc<Tree<T>>>, AllocError>
    ensures { IfOk result (λ t. optional_items t ≡ items.items) }
{
    if items.len() <= CHUNK {
        return chunk_optional(alloc, owned(alloc, items)?);
    }
    from_many(alloc, items)
}

// An owner of each item of a `Vec`.
#[tactic(auto, using(crate::proofs::ChunkedLists::owned_rules))]
fn owned<T: Drop>(alloc: Global, items: Vec<T>) -> Result<Vec<Rc<T>>, AllocError>
    ensures { IfOk result (λ v. items_of v.items ≡ items.items) }
{
    let mut owners = Vec::with_capacity(alloc, items.len())?;
    for item in items {
        owners.push(Rc::new(alloc, item)?)?;
    }
    Ok(owners)
}

// A tree of the items of a `Vec` that are more than a chunk has.
#[tactic(auto, using(crate::proofs::ChunkedLists::push_rules))]
fn from_many<T: Drop + Hint>(
    alloc: Global,
    items: Vec<T>,
) -> Result<Option<Rc<Tree<T>>>, AllocError>
    ensures { IfOk result (λ t. optional_items t ≡ items.items) }
{
    let mut trees = Vec::with_capacity(alloc, items.len() / FILL + 1)?;
    let mut owners = Vec::with_capacity(alloc, FILL)?;
    for item in items {
        owners = with_room(alloc, &mut trees, owners)?;
        owners.push(Rc::new(alloc, item)?)?;
    }
    push_chunk(alloc, &mut trees, owners)?;
    build_optional(alloc, trees.as_slice())
}

// A `Vec` with room for one more item. Items that fill a chunk become one, at the end of some trees.
#[tactic(auto, using(crate::proofs::ChunkedLists::push_rules))]
fn with_room<T: Drop>(
    alloc: Global,
    trees: &mut Vec<Rc<Tree<T>>>,
    items: Vec<Rc<T>>,
) -> Result<Vec<Rc<T>>, AllocError>
    ensures { IfOk result (λ v. all_items trees.new.items ++ items_of v.items
        ≡ all_items trees.old.items ++ items_of items.items) }
{
    if items.len() < FILL {
        return Ok(items);
    }
    push_chunk(alloc, trees, items)?;
    Ok(Vec::with_capacity(alloc, FILL)?)
}

// Puts a tree of some items at the end of others, if there is an item.
#[tactic(auto, using(crate::proofs::ChunkedLists::push_rules))]
fn push_chunk<T: Drop>(
    alloc: Global,
    trees: &mut Vec<Rc<Tree<T>>>,
    items: Vec<Rc<T>>,
) -> Result<(), AllocError>
    ensures { IfOk result (λ _. all_items trees.new.items
        ≡ all_items trees.old.items ++ items_of items.items) }
{
    if items.is_empty() {
        return Ok(());
    }
    trees.push(chunk(alloc, items)?)?;
    Ok(())
}

// One tree of the items of trees, of which there may be none.
fn build_optional<T: Drop + Hint>(
    alloc: Global,
    trees: &[Rc<Tree<T>>],
) -> Result<Option<Rc<Tree<T>>>, AllocError>
    requires { length (all_items trees.now) < 2 ^ 64 }
    ensures { IfOk result (λ t. optional_items t ≡ all_items trees.now) }
{
    if trees.is_empty() {
        return Ok(None);
    }
    Ok(Some(build(alloc, trees)?))
}

// One tree of the items of trees, of which there is at least one.
#[cycle(build)]
#[tactic(auto, using(crate::proofs::ChunkedLists::build_rules))]
fn build<T: Drop + Hint>(alloc: Global, trees: &[Rc<Tree<T>>]) -> Result<Rc<Tree<T>>, AllocError>
    requires some { 0 < length trees.now }
    requires fits { length (all_items trees.now) < 2 ^ 64 }
    ensures { IfOk result (λ t. t.value ≡ all_items trees.now) }
{
    if trees.len() == 1 {
        return Ok(trees[0].clone()?);
    }
    let (front, back) = halves(trees);
    let left = build(alloc, front)?;
    let right = build(alloc, back)?;
    pair(alloc, left, right)
}

// The first half of some trees, and the rest.
#[tactic(auto, using(crate::proofs::ChunkedLists::halves_rules))]
fn halves<T>(trees: &[Rc<Tree<T>>]) -> (&[Rc<Tree<T>>], &[Rc<Tree<T>>])
    requires { 1 < length trees.now }
    ensures front { 0 < length result.0.now }
    ensures back { 0 < length result.1.now }
    ensures count { length result.0.now + length result.1.now ≡ length trees.now }
    ensures items { all_items result.0.now ++ all_items result.1.now ≡ all_items trees.now }
{
    trees.split_at(trees.len() / 2)
}

// A chunk of some items, which may be none.
fn chunk_optional<T: Drop>(
    alloc: Global,
    items: Vec<Rc<T>>,
) -> Result<Option<Rc<Tree<T>>>, AllocError>
    ensures { IfOk result (λ t. optional_items t ≡ items_of items.items) }
{
    if items.is_empty() {
        return Ok(None);
    }
    Ok(Some(chunk(alloc, items)?))
}

/// The items of a tree with the one at a place replaced.
///
/// Makes new nodes on the path to the place alone, of the same heights.
#[cycle(set)]
#[tactic(auto, using(crate::proofs::ChunkedLists::set_rules))]
pub(crate) fn set<T: Drop + Hint>(
    alloc: Global,
    tree: &Rc<Tree<T>>,
    place: usize,
    item: Rc<T>,
) -> Result<Rc<Tree<T>>, AllocError>
    requires { place < length tree.now.value }
    ensures { IfOk result (λ t. t.value ≡ slice_set tree.now.value place item.value) }
{
    match &tree.node {
        Node::Chunk(items) => set_in_chunk(alloc, items.as_slice(), place, item),
        Node::Join(left, right, middle, len, height, hint) => {
            if place < *middle {
                let left = set(alloc, left, place, item)?;
                let hint = left.hint();
                let node = Node::Join(left, right.clone()?, *middle, *len, *height, hint);
                return Ok(Rc::new(alloc, Tree { node })?);
            }
            let right = set(alloc, right, place - *middle, item)?;
            let node = Node::Join(left.clone()?, right, *middle, *len, *height, *hint);
            Ok(Rc::new(alloc, Tree { node })?)
        }
    }
}

// A chunk of these items with the one at a place replaced.
#[tactic(auto, using(crate::proofs::ChunkedLists::chunk_set_rules))]
fn set_in_chunk<T: Drop>(
    alloc: Global,
    items: &[Rc<T>],
    place: usize,
    item: Rc<T>,
) -> Result<Rc<Tree<T>>, AllocError>
    requires { place < length items.now }
    ensures { IfOk result (λ t. t.value ≡ slice_set (items_of items.now) place item.value) }
{
    let mut owners = owners_of(alloc, items)?;
    owners[place] = item;
    chunk(alloc, owners)
}

// One more owner of each item.
fn owners_of<T: Drop>(alloc: Global, items: &[Rc<T>]) -> Result<Vec<Rc<T>>, AllocError>
    ensures { IfOk result (λ v. items_of v.items ≡ items_of items.now) }
{
    let mut owners = Vec::with_capacity(alloc, items.len())?;
    share(&mut owners, items)?;
    Ok(owners)
}

/// The items of a tree with those from `from` to before `to` replaced by those of another tree.
///
/// None is a tree of no items. If nothing is replaced by nothing, it is the same tree, shared.
#[cycle(splice)]
#[tactic(auto, using(crate::proofs::SplicedLists::splice_rules))]
pub(crate) fn splice<T: Drop + Hint>(
    alloc: Global,
    tree: &Rc<Tree<T>>,
    from: usize,
    to: usize,
    more: &Option<Rc<Tree<T>>>,
) -> Result<Option<Rc<Tree<T>>>, AllocError>
    requires order { from ≤ to }
    requires within { to ≤ length tree.now.value }
    requires fits { length tree.now.value - (to - from) + length (optional_items more.now) < 2 ^ 64 }
    ensures value { IfOk result (λ t. optional_items t
        ≡ take from tree.now.value ++ optional_items more.now ++ drop to tree.now.value) }
    ensures size { IfOk result (λ t. length (optional_items t)
        ≡ length tree.now.value - (to - from) + length (optional_items more.now)) }
{
    if from == 0 && to == tree.len() {
        return owner_of(more);
    }
    if from == to && len_of(more) == 0 {
        return Ok(Some(tree.clone()?));
    }
    match &tree.node {
        Node::Chunk(items) => splice_chunk(alloc, items.as_slice(), from, to, more),
        Node::Join(left, right, middle, _, _, _) => {
            let middle = *middle;
            if to <= middle {
                let front = splice(alloc, left, from, to, more)?;
                join_optional(alloc, front, Some(right.clone()?))
            } else if middle <= from {
                let back = splice(alloc, right, from - middle, to - middle, more)?;
                join_optional(alloc, Some(left.clone()?), back)
            } else {
                let front = splice(alloc, left, from, middle, more)?;
                let back = splice(alloc, right, 0, to - middle, &None)?;
                join_optional(alloc, front, back)
            }
        }
    }
}

/// Some of the items of a tree, from `from` to before `to`.
///
/// Goes down to the smallest part of the tree that has all of them, and makes new nodes below that part alone.
#[cycle(range)]
#[tactic(auto, using(crate::proofs::SplicedLists::range_rules))]
pub(crate) fn range<T: Drop + Hint>(
    alloc: Global,
    tree: &Rc<Tree<T>>,
    from: usize,
    to: usize,
) -> Result<Option<Rc<Tree<T>>>, AllocError>
    requires order { from ≤ to }
    requires within { to ≤ length tree.now.value }
    ensures { IfOk result (λ t. optional_items t ≡ take (to - from) (drop from tree.now.value)) }
{
    match &tree.node {
        Node::Chunk(items) => {
            let (_, behind) = items.as_slice().split_at(from);
            let (inner, _) = behind.split_at(to - from);
            chunk_optional(alloc, owners_of(alloc, inner)?)
        }
        Node::Join(left, right, middle, _, _, _) => {
            let middle = *middle;
            if to <= middle {
                return range(alloc, left, from, to);
            }
            if middle <= from {
                return range(alloc, right, from - middle, to - middle);
            }
            let front = splice(alloc, left, 0, from, &None)?;
            let back = splice(alloc, right, to - middle, right.len(), &None)?;
            join_optional(alloc, front, back)
        }
    }
}

/// One more owner of a tree, where there is one.
pub(crate) fn owner_of<T: Drop>(
    tree: &Option<Rc<Tree<T>>>,
) -> Result<Option<Rc<Tree<T>>>, AllocError>
    ensures { IfOk result (λ t. optional_items t ≡ optional_items tree.now) }
{
    match tree {
        Some(tree) => Ok(Some(tree.clone()?)),
        None => Ok(None),
    }
}

/// Two trees one after the other, either of which may have no items.
pub(crate) fn join_optional<T: Drop + Hint>(
    alloc: Global,
    left: Option<Rc<Tree<T>>>,
    right: Option<Rc<Tree<T>>>,
) -> Result<Option<Rc<Tree<T>>>, AllocError>
    requires { length (optional_items left) + length (optional_items right) < 2 ^ 64 }
    ensures { IfOk result (λ t. optional_items t ≡ optional_items left ++ optional_items right) }
{
    match (left, right) {
        (None, right) => Ok(right),
        (left, None) => Ok(left),
        (Some(left), Some(right)) => Ok(Some(join(alloc, &left, &right)?)),
    }
}

// A splice of the items of one chunk. What still fits into a chunk stays one.
#[tactic(auto, using(crate::proofs::SplicedLists::items_rules))]
fn splice_chunk<T: Drop + Hint>(
    alloc: Global,
    items: &[Rc<T>],
    from: usize,
    to: usize,
    more: &Option<Rc<Tree<T>>>,
) -> Result<Option<Rc<Tree<T>>>, AllocError>
    requires order { from ≤ to }
    requires within { to ≤ length items.now }
    requires fits { length items.now - (to - from) + length (optional_items more.now) < 2 ^ 64 }
    ensures { IfOk result (λ t. optional_items t
        ≡ take from (items_of items.now) ++ optional_items more.now ++ drop to (items_of items.now)) }
{
    let (front, _) = items.split_at(from);
    let (_, back) = items.split_at(to);
    let count = front.len() + len_of(more) + back.len();
    if count <= CHUNK {
        let mut owners = Vec::with_capacity(alloc, count)?;
        share(&mut owners, front)?;
        share_optional(&mut owners, more)?;
        share(&mut owners, back)?;
        return chunk_optional(alloc, owners);
    }
    let front = chunk_optional(alloc, owners_of(alloc, front)?)?;
    let back = chunk_optional(alloc, owners_of(alloc, back)?)?;
    let front = join_optional(alloc, front, owner_of(more)?)?;
    join_optional(alloc, front, back)
}

// How many items a tree has that may have none.
fn len_of<T>(tree: &Option<Rc<Tree<T>>>) -> usize
    ensures { result ≡ length (optional_items tree.now) }
{
    match tree {
        Some(tree) => tree.len(),
        None => 0,
    }
}

// Shares the items of a tree that may have none, and puts them at the end of others.
fn share_optional<T: Drop>(
    into: &mut Vec<Rc<T>>,
    tree: &Option<Rc<Tree<T>>>,
) -> Result<(), AllocError>
    ensures { IfOk result (λ _. items_of into.new.items
        ≡ items_of into.old.items ++ optional_items tree.now) }
{
    match tree {
        Some(tree) => share_all(into, tree),
        None => Ok(()),
    }
}
