//! The root of a list's tree, behind the raw pointer of a box with an owner of the tree: fields that led to
//! the tree would keep a type from holding lists of itself. Safe, since a root is made from a box alone, no
//! other value has its pointer, and the block is freed once, by the box that a drop makes again.

ghost use Rattle.std.specs.Prelude.{◌≡◌, IfOk};
ghost use Rattle.std.specs.Box.Ownership.{box_owns};
ghost use Rattle.shared_lists.specs.RootMemory.{Owner, owner_coded, root_owns, root_shares};

use crate::tree::Tree;
use parts::BoxParts;
use std::alloc::{AllocError, Allocator, Global};
use std::marker::Model;
use std::rc::Rc;

/// Owns a block with one owner of a tree.
pub(crate) struct Root<T> {
    pointer: *mut Rc<Tree<T>>,
    alloc: Global,
    pub ghost owner: { Owner T } by { owner_coded T.code },
}

impl<T> Model for Root<T> {
    ghost also_owns = { λ r. root_owns T.row r.alloc r.pointer r.owner };

    ghost also_shares = { λ r _ κ. root_shares T.row r.pointer r.owner κ };
}

impl<T> Root<T> {
    /// The root of a tree. Allocates one block.
    pub(crate) fn new(alloc: Global, owner: Rc<Tree<T>>) -> Result<Root<T>, AllocError>
    where
        T: Drop,
        ensures { IfOk result (λ r. r.owner ≡ owner) }
    {
        Ok(Root::from_parts(BoxParts::from_box(Box::new(alloc, owner)?)))
    }

    /// The owner of the tree.
    pub(crate) fn tree(&self) -> &Rc<Tree<T>>
        ensures { result.now ≡ self.now.owner }
    {
        // Safe: the block lives as long as the root, and nothing writes behind a `&`.
        unsafe { &*self.pointer }
    }

    fn from_parts(parts: BoxParts<Rc<Tree<T>>, Global>) -> Root<T>
        ensures { result.owner ≡ parts.value }
    {
        let BoxParts { pointer, alloc } = parts;
        Root { pointer, alloc }
    }

    fn into_parts(self) -> BoxParts<Rc<Tree<T>>, Global>
        ensures { result.value ≡ self.owner }
    {
        let Root { pointer, alloc } = self;
        BoxParts { pointer, alloc }
    }
}

impl<T: Drop> Drop for Root<T> {
    fn drop(self) {
        drop(self.into_parts().into_box());
    }
}

mod parts {
    use super::{Allocator, Model};

    /// A box taken apart, which owns what the box owned.
    pub(crate) struct BoxParts<T, A: Allocator> {
        pub(super) pointer: *mut T,
        pub(super) alloc: A,
        pub ghost value: { T },
    }

    impl<T, A: Allocator> Model for BoxParts<T, A> {
        ghost also_owns = { λ p. box_owns (A.dealloc_token p.alloc) T.row p.pointer p.value };
    }

    impl<T, A: Allocator> BoxParts<T, A> {
        pub(crate) fn from_box(whole: Box<T, A>) -> BoxParts<T, A>
        where
            T: Drop,
            ensures { result.value ≡ whole.value }
        {
            let (pointer, alloc) = Box::into_raw_with_allocator(whole);
            BoxParts { pointer, alloc }
        }

        pub(crate) fn into_box(self) -> Box<T, A>
            ensures { result.value ≡ self.value }
        {
            let BoxParts { pointer, alloc } = self;
            // Safe: the pointer and the allocator are those of a box, and `self` was their only owner.
            unsafe { Box::from_raw(alloc, pointer) }
        }
    }
}
