//! How documents are laid out: side by side, or in a list.

ghost use Rattle.std.specs.Prelude.{◌≡◌, ◌<◌, IfOk, length, slice_index_or};
ghost use Rattle.doc_values.specs.Layouts.{items_in};

use crate::iter::Iter;
use shared_lists::{Hint, SharedList};
use std::alloc::{AllocError, Global};
use std::rc::Rc;

/// Items side by side, or in a list.
#[derive(Drop)]
pub(crate) enum Layout<T> {
    /// Items in one block, which copies share.
    Block(Rc<Vec<T>>),
    /// Items in a list, whose copies share them.
    List(SharedList<T>),
}

impl<T> Layout<T> {
    /// How many items there are.
    pub(crate) fn len(&self) -> usize
        ensures { result ≡ length (items_in self.now) }
    {
        match self {
            Layout::Block(items) => items.len(),
            Layout::List(items) => items.len(),
        }
    }

    /// The item at a place, which is counted from 0 and is one of the places.
    ///
    /// It is told as an item of a slice is: the form from which a recursion sees that it is a part.
    #[tactic(auto, using(crate::proofs::Rules::item_rules))]
    pub(crate) fn get(&self, place: usize) -> &T
        requires { place < length (items_in self.now) }
        ensures { result.now ≡ slice_index_or (items_in self.now) place result.now }
    {
        match self {
            Layout::Block(items) => &items[place],
            Layout::List(items) => items.get(place),
        }
    }

    /// The items in order.
    pub(crate) fn iter(&self) -> Iter<'_, T>
        ensures { result ≡ items_in self.now }
    {
        match self {
            Layout::Block(items) => Iter::of_block(items.as_slice()),
            Layout::List(items) => Iter::of_list(items.iter()),
        }
    }
}

impl<T: Drop + Hint> Layout<T> {
    /// The same items, which both layouts share. Fails only if memory runs out.
    pub(crate) fn copy(&self, alloc: Global) -> Result<Layout<T>, AllocError>
        ensures { IfOk result (λ layout. items_in layout ≡ items_in self.now) }
    {
        match self {
            Layout::Block(items) => Ok(Layout::Block(items.clone()?)),
            Layout::List(items) => Ok(Layout::List(items.copy(alloc)?)),
        }
    }
}
