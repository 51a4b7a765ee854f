//! The items of a list, one after another.

ghost use Rattle.std.specs.Prelude.{◌≡◌, length, drop};
ghost use Rattle.std.specs.Iterator.{YieldsFirstRef, item_count};

use crate::list::SharedList;
use std::marker::Model;
use std::rc::Rc;

/// Yields the items of a list in order. Does not allocate. The next item of a chunk takes constant time.
///
/// Contracts see it as the list of the items that are left.
#[derive(Drop)]
pub struct Iter<'a, T> {
    list: &'a SharedList<T>,
    // The items of one chunk that are left, and the place behind that chunk.
    chunk: &'a [Rc<T>],
    place: usize,
}

impl<'a, T> Model for Iter<'a, T> {
    ghost use Rattle.std.specs.Prelude.{List, ◌++◌, drop};
    ghost use Rattle.std.specs.Coded.{coded_list};

    ghost Value = { List T };

    ghost coded = { coded_list T.code };

    ghost use Rattle.shared_lists.specs.Items.{items_of};

    ghost view = { λ a. items_of a.chunk.now ++ drop a.place a.list.now };
}

impl<T> SharedList<T> {
    /// The items in order.
    pub fn iter(&self) -> Iter<'_, T>
        ensures { result ≡ self.now }
    {
        Iter {
            list: self,
            chunk: &[],
            place: 0,
        }
    }
}

impl<'a, T> Iterator for Iter<'a, T> {
    type Item = &'a T;

    ghost next_gives = { YieldsFirstRef (λ items. items) };

    ghost remaining = { item_count (λ items. items) };

    #[tactic(auto, using(crate::proofs::SplicedLists::iter_rules))]
    fn next(&mut self) -> Option<&'a T> {
        if let Some((item, rest)) = self.chunk.split_first() {
            self.chunk = rest;
            return Some(item.as_ref());
        }
        if self.place >= self.list.len() {
            return None;
        }
        let chunk = self.list.chunk_from(self.place);
        let (item, rest) = chunk.split_first()?;
        self.place += chunk.len();
        self.chunk = rest;
        Some(item.as_ref())
    }
}

impl<'a, T> IntoIterator for &'a SharedList<T> {
    type Item = &'a T;

    type IntoIter = Iter<'a, T>;

    ghost into_iter_gives = { λ list items. items ≡ list.now };

    fn into_iter(self) -> Iter<'a, T> {
        self.iter()
    }
}
