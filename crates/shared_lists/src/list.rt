//! Lists whose copies share their items.

ghost use Rattle.std.specs.Prelude.{◌≡◌, ◌↔◌, ◌≤◌, ◌<◌, ◌+◌, ◌-◌, ◌^◌, ◌++◌, [], length, take, drop, slice_get};
ghost use Rattle.std.specs.Prelude.{slice_set, IsTrue, IfOk, OnOk, OnErr};
ghost use Rattle.std.specs.declared.option.Option.TheVariants.{Some};
ghost use Rattle.shared_lists.specs.Items.{items_of};

use crate::hint::Hint;
use crate::root::Root;
use crate::splices;
use crate::tree::Tree;
use std::alloc::{AllocError, Global};
use std::marker::Model;
use std::rc::Rc;

/// A list of items, whose copies share them.
///
/// Contracts see it as the list of its items. An edit that runs out of memory leaves the list as it was.
///
/// The items are in chunks of at most 16, and the chunks are the leaves of a balanced tree. Dropping the last
/// list that owns a tree recurses as deep as the tree is high: at most about 1.44 times the binary logarithm
/// of the number of chunks, so fewer than 40 levels for a hundred million items. No contract says so, since
/// nothing but the cost rests on the heights.
#[derive(Drop)]
pub struct SharedList<T> {
    pub(crate) root: Option<Root<T>>,
}

impl<T> Model for SharedList<T> {
    ghost use Rattle.std.specs.Prelude.{List};
    ghost use Rattle.std.specs.Coded.{coded_list};

    ghost Value = { List T };

    ghost coded = { coded_list T.code };

    ghost use Rattle.shared_lists.specs.ListItems.{list_items};

    ghost view = { λ a. list_items a.root };
}

impl<T> SharedList<T> {
    /// A list of no items. Does not allocate.
    pub fn empty() -> SharedList<T>
        ensures { result ≡ [] }
    {
        SharedList { root: None }
    }

    /// How many items there are. Takes constant time.
    pub fn len(&self) -> usize
        ensures { result ≡ length self.now }
    {
        match &self.root {
            None => 0,
            Some(root) => root.tree().len(),
        }
    }

    /// Whether there are no items.
    pub fn is_empty(&self) -> bool
        ensures { IsTrue result ↔ (length self.now ≡ 0) }
    {
        self.len() == 0
    }

    /// The item at a place. Places are counted from 0.
    pub fn get(&self, place: usize) -> &T
        requires { place < length self.now }
        ensures { slice_get self.now place ≡ Some result.now }
    {
        match &self.root {
            None => unreachable!(),
            Some(root) => root.tree().get(place),
        }
    }

    /// The owners of the items from a place on that are in the chunk of that place.
    pub(crate) fn chunk_from(&self, place: usize) -> &[Rc<T>]
        requires { place < length self.now }
        ensures some { 0 < length result.now }
        ensures within { place + length result.now ≤ length self.now }
        ensures items { items_of result.now ++ drop (place + length result.now) self.now ≡ drop place self.now }
    {
        match &self.root {
            None => unreachable!(),
            Some(root) => root.tree().chunk_from(place),
        }
    }
}

impl<T: Drop + Hint> SharedList<T> {
    ghost use Rattle.shared_lists.specs.Items.{optional_items};

    /// A list of these items, in this order. If there is no memory, the items are dropped.
    pub fn from_vec(alloc: Global, items: Vec<T>) -> Result<SharedList<T>, AllocError>
        ensures { IfOk result (λ list. list ≡ items.items) }
    {
        let tree = splices::from_vec(alloc, items)?;
        SharedList::from_tree(alloc, tree)
    }

    /// A list of the same items, which both lists share. Takes constant time.
    pub fn copy(&self, alloc: Global) -> Result<SharedList<T>, AllocError>
        ensures { IfOk result (λ list. list ≡ self.now) }
    {
        SharedList::from_tree(alloc, self.tree()?)
    }

    /// Replaces the item at a place.
    ///
    /// The place is one of the list's. If there is no memory, the list is as it was and the item is dropped.
    pub fn set(&mut self, alloc: Global, place: usize, item: T) -> Result<(), AllocError>
        requires { place < length self.old }
        ensures replaced { OnOk result (self.new ≡ slice_set self.old place item) }
        ensures unchanged { OnErr result (self.new ≡ self.old) }
    {
        let owner = Rc::new(alloc, item)?;
        let tree = match &self.root {
            None => unreachable!(),
            Some(root) => splices::set(alloc, root.tree(), place, owner)?,
        };
        *self = SharedList::from_tree(alloc, Some(tree))?;
        Ok(())
    }

    /// Puts items in before the item at a place, or at the end if the place is the list's length.
    ///
    /// If there is no memory, the list is as it was and the items are dropped.
    pub fn insert_many(
        &mut self,
        alloc: Global,
        place: usize,
        items: Vec<T>,
    ) -> Result<(), AllocError>
        requires within { place ≤ length self.old }
        requires fits { length self.old + length items.items < 2 ^ 64 }
        ensures inserted { OnOk result (self.new ≡ take place self.old ++ items.items ++ drop place self.old) }
        ensures unchanged { OnErr result (self.new ≡ self.old) }
    {
        let more = splices::from_vec(alloc, items)?;
        self.splice(alloc, place, place, &more)
    }

    /// Removes some items, from a place on.
    ///
    /// If there is no memory, the list is as it was.
    pub fn delete(&mut self, alloc: Global, place: usize, count: usize) -> Result<(), AllocError>
        requires within { place + count ≤ length self.old }
        ensures deleted { OnOk result (self.new ≡ take place self.old ++ drop (place + count) self.old) }
        ensures unchanged { OnErr result (self.new ≡ self.old) }
    {
        let _len = self.len();
        self.splice(alloc, place, place + count, &None)
    }

    /// Replaces some items, from a place on, by those of another list, which both lists share then.
    ///
    /// If there is no memory, the list is as it was.
    pub fn replace(
        &mut self,
        alloc: Global,
        place: usize,
        count: usize,
        items: &SharedList<T>,
    ) -> Result<(), AllocError>
        requires within { place + count ≤ length self.old }
        requires fits { length self.old - count + length items.now < 2 ^ 64 }
        ensures replaced { OnOk result (self.new
            ≡ take place self.old ++ items.now ++ drop (place + count) self.old) }
        ensures unchanged { OnErr result (self.new ≡ self.old) }
    {
        let _len = self.len();
        let more = items.tree()?;
        self.splice(alloc, place, place + count, &more)
    }

    /// A list of the items of two lists, one after the other. All three lists share the items.
    pub fn concat(&self, alloc: Global, other: &SharedList<T>) -> Result<SharedList<T>, AllocError>
        requires { length self.now + length other.now < 2 ^ 64 }
        ensures { IfOk result (λ list. list ≡ self.now ++ other.now) }
    {
        let tree = splices::join_optional(alloc, self.tree()?, other.tree()?)?;
        SharedList::from_tree(alloc, tree)
    }

    /// A list of some of the items, from a place on. Both lists share the items.
    #[tactic(auto, using(crate::proofs::SplicedLists::edit_rules))]
    pub fn part(
        &self,
        alloc: Global,
        place: usize,
        count: usize,
    ) -> Result<SharedList<T>, AllocError>
        requires { place + count ≤ length self.now }
        ensures { IfOk result (λ list. list ≡ take count (drop place self.now)) }
    {
        let _len = self.len();
        let tree = match &self.root {
            None => None,
            Some(root) => splices::range(alloc, root.tree(), place, place + count)?,
        };
        SharedList::from_tree(alloc, tree)
    }

    // The list of a tree.
    fn from_tree(alloc: Global, tree: Option<Rc<Tree<T>>>) -> Result<SharedList<T>, AllocError>
        ensures { IfOk result (λ list. list ≡ optional_items tree) }
    {
        match tree {
            None => Ok(SharedList { root: None }),
            Some(tree) => Ok(SharedList {
                root: Some(Root::new(alloc, tree)?),
            }),
        }
    }

    // One more owner of the list's tree.
    fn tree(&self) -> Result<Option<Rc<Tree<T>>>, AllocError>
        ensures { IfOk result (λ tree. optional_items tree ≡ self.now) }
    {
        match &self.root {
            None => Ok(None),
            Some(root) => Ok(Some(root.tree().clone()?)),
        }
    }

    // Replaces the items from `from` to before `to` by those of a tree.
    fn splice(
        &mut self,
        alloc: Global,
        from: usize,
        to: usize,
        more: &Option<Rc<Tree<T>>>,
    ) -> Result<(), AllocError>
        requires order { from ≤ to }
        requires within { to ≤ length self.old }
        requires fits { length self.old - (to - from) + length (optional_items more.now) < 2 ^ 64 }
        ensures replaced { OnOk result (self.new
            ≡ take from self.old ++ optional_items more.now ++ drop to self.old) }
        ensures unchanged { OnErr result (self.new ≡ self.old) }
    {
        let tree = match &self.root {
            None => splices::owner_of(more)?,
            Some(root) => splices::splice(alloc, root.tree(), from, to, more)?,
        };
        *self = SharedList::from_tree(alloc, tree)?;
        Ok(())
    }
}
