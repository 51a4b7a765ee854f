//! Trees put together so that the heights of two sides differ by at most one.
//!
//! No proof rests on the heights: a tree that is out of balance has the same items.

ghost use Rattle.std.specs.Prelude.{◌≡◌, ◌<◌, ◌+◌, ◌^◌, ◌++◌, length, IfOk};

use crate::hint::Hint;
use crate::tree::{Node, Tree, pair};
use std::alloc::{AllocError, Global};
use std::rc::Rc;

/// Two trees one after the other, whatever their heights are.
///
/// The recursion goes down as far as the heights differ.
#[cycle(join)]
pub(crate) fn join<T: Drop + Hint>(
    alloc: Global,
    left: &Rc<Tree<T>>,
    right: &Rc<Tree<T>>,
) -> Result<Rc<Tree<T>>, AllocError>
    requires { length left.now.value + length right.now.value < 2 ^ 64 }
    ensures { IfOk result (λ t. t.value ≡ left.now.value ++ right.now.value) }
{
    if is_higher(left, right) {
        match &left.node {
            Node::Chunk(_) => pair(alloc, left.clone()?, right.clone()?),
            Node::Join(outer, inner, _, _, _, _) => {
                rebalance(alloc, outer.clone()?, join(alloc, inner, right)?)
            }
        }
    } else if is_higher(right, left) {
        match &right.node {
            Node::Chunk(_) => pair(alloc, left.clone()?, right.clone()?),
            Node::Join(inner, outer, _, _, _, _) => {
                rebalance(alloc, join(alloc, left, inner)?, outer.clone()?)
            }
        }
    } else {
        pair(alloc, left.clone()?, right.clone()?)
    }
}

// Whether the first tree is higher than the second by more than one.
fn is_higher<T>(first: &Rc<Tree<T>>, second: &Rc<Tree<T>>) -> bool {
    first.height() > second.height().saturating_add(1)
}

// Two trees whose heights differ by at most two, with a rotation where they differ by two.
fn rebalance<T: Drop + Hint>(
    alloc: Global,
    left: Rc<Tree<T>>,
    right: Rc<Tree<T>>,
) -> Result<Rc<Tree<T>>, AllocError>
    requires { length left.value + length right.value < 2 ^ 64 }
    ensures { IfOk result (λ t. t.value ≡ left.value ++ right.value) }
{
    if is_higher(&left, &right) {
        rotate_right(alloc, left, right)
    } else if is_higher(&right, &left) {
        rotate_left(alloc, left, right)
    } else {
        pair(alloc, left, right)
    }
}

// Two trees of which the left one is too high.
fn rotate_right<T: Drop + Hint>(
    alloc: Global,
    left: Rc<Tree<T>>,
    right: Rc<Tree<T>>,
) -> Result<Rc<Tree<T>>, AllocError>
    requires { length left.value + length right.value < 2 ^ 64 }
    ensures { IfOk result (λ t. t.value ≡ left.value ++ right.value) }
{
    match &left.node {
        Node::Chunk(_) => {}
        Node::Join(outer, inner, _, _, _, _) => {
            if outer.height() < inner.height() {
                return split_between(alloc, outer.clone()?, inner, right);
            }
            return pair(alloc, outer.clone()?, pair(alloc, inner.clone()?, right)?);
        }
    }
    pair(alloc, left, right)
}

// Two trees of which the right one is too high.
fn rotate_left<T: Drop + Hint>(
    alloc: Global,
    left: Rc<Tree<T>>,
    right: Rc<Tree<T>>,
) -> Result<Rc<Tree<T>>, AllocError>
    requires { length left.value + length right.value < 2 ^ 64 }
    ensures { IfOk result (λ t. t.value ≡ left.value ++ right.value) }
{
    match &right.node {
        Node::Chunk(_) => {}
        Node::Join(inner, outer, _, _, _, _) => {
            if outer.height() < inner.height() {
                return split_between(alloc, left, inner, outer.clone()?);
            }
            return pair(alloc, pair(alloc, left, inner.clone()?)?, outer.clone()?);
        }
    }
    pair(alloc, left, right)
}

// Three trees, one after the other. The two sides of the middle one go to its neighbours.
fn split_between<T: Drop + Hint>(
    alloc: Global,
    left: Rc<Tree<T>>,
    middle: &Rc<Tree<T>>,
    right: Rc<Tree<T>>,
) -> Result<Rc<Tree<T>>, AllocError>
    requires { length left.value + length middle.now.value + length right.value < 2 ^ 64 }
    ensures { IfOk result (λ t. t.value ≡ left.value ++ middle.now.value ++ right.value) }
{
    match &middle.node {
        Node::Chunk(_) => pair(alloc, left, pair(alloc, middle.clone()?, right)?),
        Node::Join(first, second, _, _, _, _) => pair(
            alloc,
            pair(alloc, left, first.clone()?)?,
            pair(alloc, second.clone()?, right)?,
        ),
    }
}
