//! The place where the items of a list stop passing a test.

ghost use Rattle.std.specs.Prelude.{◌≡◌, ◌≤◌, Bool, IsTrue, IfSome, length};
ghost use Rattle.shared_lists.specs.Edges.{PassesBefore, FailsAt};

use crate::hint::Hint;
use crate::list::SharedList;
use crate::tree::{Node, Tree};
use std::rc::Rc;

/// A test of items.
pub trait Test<T> {
    ghost test: { Self → T → Bool };

    /// Whether an item passes the test.
    fn passes(&self, item: &T) -> bool
        ensures { result ≡ test self.now item.now };

    /// Whether an item with this hint should pass the test, or None if the hint does not tell.
    ///
    /// A search asks it first. No contract rests on what it returns.
    fn passes_hint(&self, hint: u64) -> Option<bool>;
}

impl<T: Hint> SharedList<T> {
    /// A place before which the item passes a test, and at which the item fails it. Before the first place and behind
    /// the last one there is no item.
    ///
    /// It is the number of the items that pass, where they all come before the others. Does not allocate. Looks at some
    /// log n hints, where n is how many items there are, and at a few items if their hints are in order and differ.
    pub fn edge<C: Test<T>>(&self, test: &C) -> usize
        ensures within { result ≤ length self.now }
        ensures passes { PassesBefore (C.test test.now) self.now result }
        ensures fails { FailsAt (C.test test.now) self.now result }
    {
        if let Some(place) = self.guessed(test) {
            return place;
        }
        self.edge_by_items(test)
    }

    // The place that the hints lead to, if it is one. An empty list has no hints.
    fn guessed<C: Test<T>>(&self, test: &C) -> Option<usize>
        ensures within { IfSome result (λ place. place ≤ length self.now) }
        ensures passes { IfSome result (PassesBefore (C.test test.now) self.now) }
        ensures fails { IfSome result (FailsAt (C.test test.now) self.now) }
    {
        let Some(root) = &self.root else {
            return None;
        };
        let tree = root.tree();
        let place = tree.guessed(test);
        if tree.passes_before(place, test) && tree.fails_at(place, test) {
            return Some(place);
        }
        None
    }
}

impl<T> SharedList<T> {
    // The same place, found by the items alone.
    #[tactic(auto, using(crate::proofs::Edges::search_rules))]
    fn edge_by_items<C: Test<T>>(&self, test: &C) -> usize
        ensures within { result ≤ length self.now }
        ensures passes { PassesBefore (C.test test.now) self.now result }
        ensures fails { FailsAt (C.test test.now) self.now result }
    {
        let mut low = 0;
        let mut high = self.len();
        while low < high {
            let middle = low + (high - low) / 2;
            if test.passes(self.get(middle)) {
                low = middle + 1;
            } else {
                high = middle;
            }
        }
        low
    }
}

impl<T> Tree<T> {
    // Whether the item before a place passes the test.
    #[tactic(auto, using(crate::proofs::Edges::place_rules))]
    fn passes_before<C: Test<T>>(&self, place: usize, test: &C) -> bool
        requires { place ≤ length self.now }
        ensures { IsTrue result → PassesBefore (C.test test.now) self.now place }
    {
        if place == 0 {
            return true;
        }
        test.passes(self.get(place - 1))
    }

    // Whether the item at a place fails the test.
    #[tactic(auto, using(crate::proofs::Edges::place_rules))]
    fn fails_at<C: Test<T>>(&self, place: usize, test: &C) -> bool
        requires { place ≤ length self.now }
        ensures { IsTrue result → FailsAt (C.test test.now) self.now place }
    {
        if place == self.len() {
            return true;
        }
        !test.passes(self.get(place))
    }
}

impl<T: Hint> Tree<T> {
    // The place that the hints lead to.
    #[tactic(auto, using(crate::proofs::ChunkedLists::chunk_rules))]
    fn guessed<C: Test<T>>(&self, test: &C) -> usize
        ensures { result ≤ length self.now }
    {
        match &self.node {
            Node::Chunk(items) => guessed_in(items.as_slice(), test),
            Node::Join(left, right, middle, len, _, _) => {
                let _len = *len;
                if right.is_before_edge(test) {
                    *middle + right.guessed(test)
                } else {
                    left.guessed(test)
                }
            }
        }
    }

    // Whether the first item should pass the test, by its hint where that tells.
    fn is_before_edge<C: Test<T>>(&self, test: &C) -> bool {
        match test.passes_hint(self.hint()) {
            Some(passes) => passes,
            None => test.passes(self.first()),
        }
    }
}

// The same place in a chunk, found by the items.
fn guessed_in<T, C: Test<T>>(items: &[Rc<T>], test: &C) -> usize
    ensures { result ≤ length items.now }
{
    let mut low = 0;
    let mut high = items.len();
    while low < high {
        let middle = low + (high - low) / 2;
        if test.passes(items[middle].as_ref()) {
            low = middle + 1;
        } else {
            high = middle;
        }
    }
    low
}
