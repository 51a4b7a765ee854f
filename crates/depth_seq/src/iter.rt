//! The depths of a list, one after another.

ghost use Rattle.std.specs.Prelude.{◌≡◌, length, drop};
ghost use Rattle.std.specs.Iterator.{YieldsFirstRef, item_count};

use crate::seq::DepthSeq;
use std::marker::Model;

/// Yields the depths of a list in order. Does not allocate. The next depth of a chunk takes constant time.
///
/// Contracts see it as the list of the depths that are left.
#[derive(Drop)]
pub struct Iter<'a> {
    list: &'a DepthSeq,
    // The depths of one chunk that are left, and the place behind that chunk.
    chunk: &'a [u64],
    place: usize,
}

impl<'a> Model for Iter<'a> {
    ghost use Rattle.std.specs.Prelude.{List, ℕ, ◌++◌, drop};

    ghost Value = { List ℕ };

    ghost view = { λ a. a.chunk.now ++ drop a.place a.list.now };
}

impl DepthSeq {
    /// The depths in order.
    pub fn iter(&self) -> Iter<'_>
        ensures { result ≡ self.now }
    {
        Iter {
            list: self,
            chunk: &[],
            place: 0,
        }
    }
}

impl<'a> Iterator for Iter<'a> {
    type Item = &'a u64;

    ghost next_gives = { YieldsFirstRef (λ items. items) };

    ghost remaining = { item_count (λ items. items) };

    #[tactic(auto, using(crate::proofs::Parts::iter_rules))]
    fn next(&mut self) -> Option<&'a u64> {
        if let Some((depth, rest)) = self.chunk.split_first() {
            self.chunk = rest;
            return Some(depth);
        }
        if self.place >= self.list.len() {
            return None;
        }
        let chunk = self.list.chunk_from(self.place);
        let (depth, rest) = chunk.split_first()?;
        self.place += chunk.len();
        self.chunk = rest;
        Some(depth)
    }
}

impl<'a> IntoIterator for &'a DepthSeq {
    type Item = &'a u64;

    type IntoIter = Iter<'a>;

    ghost into_iter_gives = { λ list items. items ≡ list.now };

    fn into_iter(self) -> Iter<'a> {
        self.iter()
    }
}
