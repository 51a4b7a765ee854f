//! The balanced tree of a list that is not empty.

ghost use Rattle.std.specs.Prelude.{◌≡◌, ◌<◌, ◌≤◌, ◌+◌, ◌^◌, ◌++◌, length, drop, slice_get, IfOk};
ghost use Rattle.std.specs.declared.option.Option.TheVariants.{Some};
ghost use Rattle.shared_lists.specs.Items.{items_of};

use crate::hint::Hint;
use std::alloc::{AllocError, Global};
use std::marker::Model;
use std::rc::Rc;

/// How many items a chunk has at most.
pub(crate) const CHUNK: usize = 16;

#[cycle(tree)]
#[derive(Drop)]
pub(crate) enum Node<T> {
    /// Some items, at least one.
    Chunk(Vec<Rc<T>>),
    /// Two trees one after the other, the number of items of the first, that of both, the height of this tree, and the
    /// hint of its first item.
    Join(Rc<Tree<T>>, Rc<Tree<T>>, usize, usize, u8, u64),
}

/// At least one item, in order.
#[cycle(tree)]
#[derive(Drop)]
pub(crate) struct Tree<T> {
    pub(crate) node: Node<T>,
}

impl<T> Model for Tree<T> {
    ghost use Rattle.std.specs.Prelude.{List, length};
    ghost use Rattle.std.specs.Coded.{coded_list};

    ghost Value = { List T };

    ghost coded = { coded_list T.code };

    ghost use Rattle.shared_lists.specs.Nodes.{node_items, IsSound};

    ghost view = { λ a. node_items a.node };

    ghost invariant = { λ a. IsSound a.node };

    ghost size = { length };

    ghost use Rattle.std.proofs.Common.{arith, length-append};

    ghost size_decreases = { λ a h. Prim.grind (arith, length-append) };
}

impl<T> Tree<T> {
    /// How many items there are.
    pub(crate) fn len(&self) -> usize
        ensures value { result ≡ length self.now }
        ensures some { 0 < result }
    {
        match &self.node {
            Node::Chunk(items) => items.len(),
            Node::Join(_, _, _, len, _, _) => *len,
        }
    }

    /// The height: 0 for a chunk. Only the cost rests on it.
    pub(crate) fn height(&self) -> u8 {
        match &self.node {
            Node::Chunk(_) => 0,
            Node::Join(_, _, _, _, height, _) => *height,
        }
    }

    /// The item at a place.
    pub(crate) fn get(&self, place: usize) -> &T
        requires { place < length self.now }
        ensures { slice_get self.now place ≡ Some result.now }
    {
        match &self.node {
            Node::Chunk(items) => &items[place],
            Node::Join(left, right, middle, _, _, _) => {
                if place < *middle {
                    left.get(place)
                } else {
                    right.get(place - *middle)
                }
            }
        }
    }

    /// The first item.
    pub(crate) fn first(&self) -> &T
        ensures { slice_get self.now 0 ≡ Some result.now }
    {
        match &self.node {
            Node::Chunk(items) => &items[0],
            Node::Join(left, _, _, _, _, _) => left.first(),
        }
    }

    /// The items from a place on that are in the chunk of the item at that place.
    #[tactic(auto, using(crate::proofs::ChunkedLists::chunk_rules))]
    pub(crate) fn chunk_from(&self, place: usize) -> &[Rc<T>]
        requires { place < length self.now }
        ensures some { 0 < length result.now }
        ensures within { place + length result.now ≤ length self.now }
        ensures items { items_of result.now ++ drop (place + length result.now) self.now ≡ drop place self.now }
    {
        match &self.node {
            Node::Chunk(items) => {
                let (_, rest) = items.as_slice().split_at(place);
                rest
            }
            Node::Join(left, right, middle, _, _, _) => {
                if place < *middle {
                    left.chunk_from(place)
                } else {
                    right.chunk_from(place - *middle)
                }
            }
        }
    }
}

impl<T: Hint> Tree<T> {
    /// The hint of the first item. Only the cost rests on it.
    pub(crate) fn hint(&self) -> u64 {
        match &self.node {
            Node::Chunk(items) => items[0].hint(),
            Node::Join(_, _, _, _, _, hint) => *hint,
        }
    }
}

/// Counts one more owner of each of some items, and puts them at the end of others.
pub(crate) fn share<T: Drop>(into: &mut Vec<Rc<T>>, items: &[Rc<T>]) -> Result<(), AllocError>
    ensures { IfOk result (λ _. items_of into.new.items ≡ items_of into.old.items ++ items_of items.now) }
{
    for item in items {
        into.push(item.clone()?)?;
    }
    Ok(())
}

/// A tree of one chunk.
pub(crate) fn chunk<T: Drop>(alloc: Global, items: Vec<Rc<T>>) -> Result<Rc<Tree<T>>, AllocError>
    requires { 0 < length items.items }
    ensures { IfOk result (λ t. t.value ≡ items_of items.items) }
{
    let node = Node::Chunk(items);
    Ok(Rc::new(alloc, Tree { node })?)
}

/// Shares all items of a tree, and puts them at the end of others.
#[cycle(share_all)]
pub(crate) fn share_all<T: Drop>(
    into: &mut Vec<Rc<T>>,
    tree: &Rc<Tree<T>>,
) -> Result<(), AllocError>
    ensures { IfOk result (λ _. items_of into.new.items ≡ items_of into.old.items ++ tree.now.value) }
{
    match &tree.node {
        Node::Chunk(items) => share(into, items.as_slice()),
        Node::Join(left, right, _, _, _, _) => {
            share_all(into, left)?;
            share_all(into, right)
        }
    }
}

/// Two trees one after the other, with no look at their heights. Few items make one chunk.
pub(crate) fn pair<T: Drop + Hint>(
    alloc: Global,
    left: Rc<Tree<T>>,
    right: Rc<Tree<T>>,
) -> Result<Rc<Tree<T>>, AllocError>
    requires { length left.value + length right.value < 2 ^ 64 }
    ensures { IfOk result (λ t. t.value ≡ left.value ++ right.value) }
{
    let middle = left.len();
    let len = middle + right.len();
    if len <= CHUNK {
        let mut items = Vec::with_capacity(alloc, len)?;
        share_all(&mut items, &left)?;
        share_all(&mut items, &right)?;
        return chunk(alloc, items);
    }
    let height = left.height().max(right.height()).saturating_add(1);
    let hint = left.hint();
    let node = Node::Join(left, right, middle, len, height, hint);
    Ok(Rc::new(alloc, Tree { node })?)
}
