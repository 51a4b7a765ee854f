//! The items of a layout, one after another.

ghost use Rattle.std.specs.Prelude.{◌≡◌};
ghost use Rattle.std.specs.Iterator.{YieldsFirstRef, item_count};

use std::marker::Model;

/// Yields the items of a record or of a container in order. Does not allocate.
///
/// Contracts see it as the list of the items that are left.
#[derive(Drop)]
pub struct Iter<'a, T> {
    // The items that are left of a block, and those that are left of a list.
    block: &'a [T],
    list: Option<shared_lists::Iter<'a, T>>,
}

impl<'a, T> Model for Iter<'a, T> {
    ghost use Rattle.std.specs.Prelude.{List, ◌++◌};
    ghost use Rattle.std.specs.Coded.{coded_list};

    ghost Value = { List T };

    ghost coded = { coded_list T.code };

    ghost use Rattle.doc_values.specs.Layouts.{left_of};

    ghost view = { λ a. a.block.now ++ left_of a.list };
}

impl<'a, T> Iter<'a, T> {
    /// The items of a block.
    pub(crate) fn of_block(block: &'a [T]) -> Iter<'a, T>
        ensures { result ≡ block.now }
    {
        Iter { block, list: None }
    }

    /// The items that are left of a list.
    pub(crate) fn of_list(list: shared_lists::Iter<'a, T>) -> Iter<'a, T>
        ensures { result ≡ list.entry }
    {
        Iter {
            block: &[],
            list: Some(list),
        }
    }
}

impl<'a, T> Iterator for Iter<'a, T> {
    type Item = &'a T;

    ghost next_gives = { YieldsFirstRef (λ items. items) };

    ghost remaining = { item_count (λ items. items) };

    fn next(&mut self) -> Option<&'a T> {
        if let Some((item, rest)) = self.block.split_first() {
            self.block = rest;
            return Some(item);
        }
        match &mut self.list {
            Some(list) => list.next(),
            None => None,
        }
    }
}
